//! Where a broker listens, as a word of the command line says it.
ghost use Rattle.program_words.specs.Places.{ReadsPlace};

use base_device::Place;

/// Where a broker is asked: a word with a slash is a path, and every other one has to be a port from 1 to 65535, in decimal
/// digits, of which a plus may stand in front. `None`: it is neither.
pub fn place_to_ask(word: &str) -> Option<Place<'_>>
    ensures { ReadsPlace 1 word.now result }
{
    read(word, 1)
}

/// Where a broker is to listen: the same, but for port 0, by which the system chooses one.
pub fn place_to_listen(word: &str) -> Option<Place<'_>>
    ensures { ReadsPlace 0 word.now result }
{
    read(word, 0)
}

fn read(word: &str, least: u16) -> Option<Place<'_>>
    ensures { ReadsPlace least word.now result }
{
    if word.contains('/') {
        return Some(Place::Path(word));
    }
    let Ok(port) = word.parse::<u16>() else {
        return None;
    };
    if port < least {
        return None;
    }
    Some(Place::Port(port))
}
