// A desk's line in what `show` prints.
ghost use Rattle.std.specs.Prelude.{◌≡◌, Some};
ghost use Rattle.shows.specs.Texts.{place_text, level_text, levels_text, show_text};

use crate::show::Show;
use hexadecimal::Hex;
use std::fmt;

// Where a desk stands: in circle 0 or in none. (A plain yes or no, with nothing beside it.)
fn place(inside: bool) -> &'static str
    ensures { result.now ≡ place_text inside }
{
    if inside { "in 0" } else { "in none" }
}

// ` C=L` for a level that isn't 0. (A type of its own, so that its text is stated by itself and the loop only joins texts; an `if` in the loop would be no plainer to prove.)
#[derive(Clone, Copy)]
struct LevelAt {
    channel: usize,
    level: u16,
}

impl fmt::Display for LevelAt {
    ghost output = { λ l. Some (level_text l.channel l.level) };

    fn fmt<W: fmt::Write>(&self, f: &mut fmt::Formatter<W>) -> fmt::Result {
        if self.level == 0 {
            return Ok(());
        }
        write!(f, " {}={}", self.channel, self.level)
    }
}

// The levels that aren't 0, by channel.
#[derive(Clone, Copy)]
struct Levels<'a>(&'a [u16; 512]);

impl<'a> fmt::Display for Levels<'a> {
    ghost output = { λ l. Some (levels_text 512 l.0.now) };

    fn fmt<W: fmt::Write>(&self, f: &mut fmt::Formatter<W>) -> fmt::Result {
        for (channel, level) in self.0.iter().enumerate() {
            let at = LevelAt {
                channel,
                level: *level,
            };
            at.fmt(f)?;
        }
        Ok(())
    }
}

// `desk D: PLACE, done N, digest HEX, levels C=L C=L`.
impl fmt::Display for Show {
    ghost output = { λ s. Some (show_text s) };

    #[tactic(auto, unfolding(crate::specs::Texts::show_text))]
    fn fmt<W: fmt::Write>(&self, f: &mut fmt::Formatter<W>) -> fmt::Result {
        let place = place(self.stage.is_inside());
        let done = self.stage.done();
        write!(f, "desk {}: {place}, done {}", self.desk, done.count)?;
        writeln!(
            f,
            ", digest {}, levels{}",
            Hex(&done.digest),
            Levels(self.stage.levels())
        )
    }
}
