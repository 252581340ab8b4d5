//! A law of answers.
ghost use Rattle.peer_session.specs.Answers.{IsOther};
ghost use Rattle.peer_session.specs.declared.phase.Todo.{Todo};
ghost use Rattle.peer_session.specs.declared.steps.Answer.TheVariants as answers;

/// Want of memory is the answer to no step.
pub fn memory_is_other()
    ensures { (todo : Todo) → IsOther todo answers.Memory }
{}
