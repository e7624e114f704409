//! The law of written scripts. The function does nothing: its contract is the law.
ghost use Rattle.neigh_script.specs.Limits.{ScriptsAgain, TextsTellScripts};

/// A written script is read again, so two scripts within their limits with one text are one.
pub fn texts_tell_scripts()
    ensures again { ScriptsAgain }
    ensures tells { TextsTellScripts }
{}
