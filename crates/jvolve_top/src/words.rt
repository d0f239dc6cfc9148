//! The words of a command.

ghost use Rattle.std.specs.Prelude.{◌≡◌, option_map};
ghost use Rattle.run_model.specs.Invocation.{invocation_of};
ghost use Rattle.jvolve_top.specs.Words.{invocation_view, words_view};

/// What a command asks for.
#[derive(Clone, Copy)]
pub(crate) enum Invocation<'a> {
    /// To run the program of the manifest in this file.
    Run { manifest: &'a str },
    /// To link and verify it, and to tell of it.
    Check { manifest: &'a str },
    /// To write the class file of the assembler text in this file.
    Asm { file: &'a str },
}

/// What the words ask for, where they are in the form of a command.
pub(crate) fn read_words<'a>(words: &[&'a str]) -> Option<Invocation<'a>>
    ensures { option_map invocation_view result ≡ invocation_of (words_view words.now) }
{
    match words {
        [mode, manifest] if *mode == "run" => Some(Invocation::Run { manifest }),
        [mode, manifest] if *mode == "check" => Some(Invocation::Check { manifest }),
        [mode, file] if *mode == "asm" => Some(Invocation::Asm { file }),
        _ => None,
    }
}
