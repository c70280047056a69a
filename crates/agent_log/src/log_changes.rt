//! What the log says of the file.
ghost use Rattle.std.specs.Prelude.{◌≡◌, map};
ghost use Rattle.agent_log.specs.Changed.{copy_lines, reread_line, reread_lines};
ghost use Rattle.agent_log.specs.Lines.{AreSaid, LineIsSaid, text_line};

use crate::log_line::Pen;
use crate::rooms::Rooms;
use agent_words::Reread;
use base_log::Level;
use base_moment::Text;

/// Says that the file was read anew, and which changes do not hold any more.
#[tactic(auto, using(crate::proofs::Said::one_said, crate::proofs::Said::both_said), unfolding(crate::specs::Changed::reread_lines))]
pub(crate) fn say_reread(pen: &Pen, reread: &Reread, room: &mut Rooms)
    ensures { AreSaid pen.now.form pen.now.moment (reread_lines reread.now) room.old room.new }
{
    say_unkept(pen, &reread.unkept, room);
    say_read(pen, room);
    say_each(pen, Level::Note, "journal", &reread.notes, room);
}

// Says what is said of a copy that could not be kept.
#[tactic(auto, using(crate::proofs::Said::one_said))]
fn say_unkept(pen: &Pen, unkept: &Option<Text>, room: &mut Rooms)
    ensures { AreSaid pen.now.form pen.now.moment (copy_lines unkept.now) room.old room.new }
{
    if let Some(said) = unkept {
        pen.say_text(Level::Warning, "copy", said.list(), room);
    }
}

fn say_read(pen: &Pen, room: &mut Rooms)
    ensures { LineIsSaid pen.now.form pen.now.moment reread_line room.old room.new }
{
    pen.say_text(Level::Info, "file", b"was read anew", room);
}

/// Says a line for each of these texts.
pub(crate) fn say_each(
    pen: &Pen,
    level: Level,
    event: &'static str,
    texts: &[Text],
    room: &mut Rooms,
)
    ensures { AreSaid pen.now.form pen.now.moment (map (text_line level event.now) texts.now) room.old room.new }
{
    for text in texts {
        say_one(pen, level, event, text, room);
    }
}

fn say_one(pen: &Pen, level: Level, event: &'static str, text: &Text, room: &mut Rooms)
    ensures { LineIsSaid pen.now.form pen.now.moment (text_line level event.now text.now) room.old room.new }
{
    pen.say_text(level, event, text.list(), room);
}
