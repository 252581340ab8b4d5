//! Laws of the terms of a configuration. Nothing of the code stands on them.
ghost use Rattle.article_verdict.specs.Config.{terms_of};
ghost use Rattle.relay_conf.specs.declared.settings.Config as settings;
ghost use Rattle.relay_facts.specs.Sound.{IsSound};

/// The terms of each configuration are sound, whatever its files say.
pub fn terms_are_sound()
    ensures { (config : settings.Config) → IsSound (terms_of config) }
{}
