//! The commands of a session, as a gate is asked of them.
ghost use Rattle.std.specs.Prelude.{◌≡◌, None, Some};
ghost use Rattle.live_session.specs.Commands.{newest_in, next_after, number_of, session_of};

/// A command of a session, of which a gate is asked, and told once its reply was written. Only the
/// session that reads the command makes one.
#[derive(Clone, Copy)]
pub struct Command {
    session: u64,
    number: u64,
}

impl Command {
    /// The number of its session.
    pub fn session(&self) -> u64
        ensures { result ≡ session_of self.now }
    {
        self.session
    }

    /// Which of its session's commands it is, counted from 0.
    pub fn number(&self) -> u64
        ensures { result ≡ number_of self.now }
    {
        self.number
    }
}

/// The commands of a session that a gate was asked of: the newest of them.
#[derive(Drop)]
pub(crate) struct Commands {
    session: u64,
    newest: Option<Command>,
}

impl Commands {
    /// None of this session yet.
    pub(crate) fn of(session: u64) -> Commands
        ensures { result ≡ record { session = session; newest = None } }
    {
        Commands {
            session,
            newest: None,
        }
    }

    /// The next one, which is the newest from now on.
    pub(crate) fn next(&mut self) -> Command
        ensures next { result ≡ next_after self.old.session self.old.newest }
        ensures newest { self.new ≡ record self.old { newest = Some result } }
    {
        let number = match self.newest {
            Some(command) => command.number.wrapping_add(1),
            None => 0,
        };
        let command = Command {
            session: self.session,
            number,
        };
        self.newest = Some(command);
        command
    }

    /// The newest one.
    pub(crate) fn newest(&self) -> Option<Command>
        ensures { result ≡ newest_in self.now }
    {
        self.newest
    }
}
