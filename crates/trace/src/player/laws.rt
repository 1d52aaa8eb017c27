//! A law of plays. The function does nothing: its contract is the law.
ghost use Rattle.std.specs.Prelude.{Result};
ghost use Rattle.size_classes.specs.declared.config.Config.{Config};
ghost use Rattle.machine.specs.Headline.{Holds};
ghost use Rattle.machine.specs.Space.{SpaceSuffices};
ghost use Rattle.trace.specs.Streams.{Given};
ghost use Rattle.trace.specs.declared.fault.PlayFault.{PlayFault};
ghost use Rattle.trace.specs.declared.player.style.Style.{Style};
ghost use Rattle.trace.specs.New.{IsNew};
ghost use Rattle.trace.specs.Playing.{Session, Played};

/// A play on a new player leaves a heap for which all promises hold, and space suffices for its events.
pub fn plays_are_promised()
    ensures { (config : Config) (style : Style) (given : Given) (old new : Session)
        (result : Result (Unit {0}) PlayFault)
        (p : Played style given old new result) → IsNew config old.player → Holds new.player.course
        × SpaceSuffices config p.over.events }
{}
