//! What is said of a start, or of a state folder that is opened later.
ghost use Rattle.std.specs.Prelude.{◌≡◌};
ghost use Rattle.agent_words.specs.Saying.{about_word};

use base_log::Level;
use base_moment::Text;

/// What a line is about.
#[derive(Clone, Copy, Debug)]
pub enum About {
    Folder,
    File,
    Copy,
    Journal,
    SecretFile,
    Log,
    Ends,
}

impl About {
    /// Its word in the log.
    pub fn word(self) -> &'static str
        ensures { result.now ≡ about_word self }
    {
        match self {
            About::Folder => "folder",
            About::File => "file",
            About::Copy => "copy",
            About::Journal => "journal",
            About::SecretFile => "secret-file",
            About::Log => "log",
            About::Ends => "ends",
        }
    }
}

/// What is said: of the state folder or the file, or of a file for which the loop waits.
#[derive(Debug, Drop)]
pub struct SaidLine {
    pub level: Level,
    pub about: About,
    pub text: Text,
}
