// A member's history: what it has done, kept as the levels, a count and a digest that its commands and views make.
#![tactic(auto)]

pub mod laws;

ghost use Rattle.std.specs.Prelude.{◌≡◌, ℕ, List, [], ◌∷◌, ◌++◌};
ghost use Rattle.commands.specs.Levels.{applied};
ghost use Rattle.history.specs.History.{event_bytes, record_after, levels_from, record_from, record_of, deliveries, GoesOn};

use arrayvec::ArrayVec;
use commands::types::Command;
use sha256::digest;

// How many events there were, and the digest of them all.
#[derive(Clone, Copy)]
pub struct Record {
    pub count: u64,
    pub digest: [u8; 32],
}

// One thing done.
#[derive(Clone, Copy)]
pub enum Event {
    // a command delivered
    Delivered(Command),
    // a view entered
    Entered(u32),
}

impl Event {
    // The bytes of which the next digest is made: the last digest, then the event's, whose first byte says which it is. The longest command needs 114 places.
    // (The format's 1 and 2 stand here alone, so no enum has them.)
    #[tactic(auto, using(std::proofs::lemmas::Grind::common_steps, crate::proofs::Written::written))]
    fn message(&self, last: &[u8; 32]) -> ArrayVec<u8, 114>
        ensures { result.items ≡ last.now ++ event_bytes self.now }
    {
        let mut bytes = ArrayVec::new();
        bytes.try_extend_from_slice(last).unwrap();
        match self {
            Event::Delivered(command) => {
                // places with a size beside them: a command is written to memory that is lent, and a second way to write it would be no plainer
                let mut places = [0; 81];
                let size = command.write(&mut places).unwrap();
                bytes.push(1);
                bytes.try_extend_from_slice(&places[..size]).unwrap();
            }
            Event::Entered(view) => {
                bytes.push(2);
                bytes.try_extend_from_slice(&view.to_be_bytes()).unwrap();
            }
        }
        bytes
    }
}

impl Record {
    // Before anything was done.
    #[tactic(auto, unfolding(crate::specs::History::first_record))]
    pub fn new() -> Record
        ensures { result ≡ record_of [] }
    {
        Record {
            count: 0,
            digest: [0; 32],
        }
    }

    // One event more. The count has 64 bits and wraps on purpose.
    fn after(self, event: &Event) -> Record
        ensures { result ≡ record_after self event.now }
    {
        Record {
            count: self.count.wrapping_add(1),
            digest: digest(event.message(&self.digest).as_slice()),
        }
    }

    // One command more, done to the levels too.
    pub fn deliver(self, levels: &mut [u16], command: &Command) -> Record
        ensures value { result ≡ record_after self (Event.Delivered command.now) }
        ensures after { levels.new ≡ applied command.now.action levels.old }
        ensures history { GoesOn levels.old self levels.new result (Event.Delivered command.now ∷ []) }
    {
        command.apply(levels);
        self.after(&Event::Delivered(*command))
    }

    // Commands delivered one after another.
    pub fn deliver_all(self, levels: &mut [u16], commands: &[Command]) -> Record
        ensures value { result ≡ record_from self (deliveries commands.now) }
        ensures after { levels.new ≡ levels_from levels.old (deliveries commands.now) }
        ensures history { GoesOn levels.old self levels.new result (deliveries commands.now) }
    {
        let mut record = self;
        for command in commands {
            record = record.deliver(levels, command);
        }
        record
    }

    // One view more: the levels stay as they are.
    pub fn enter(self, view: u32) -> Record
        ensures value { result ≡ record_after self (Event.Entered view) }
        ensures history { (levels : List ℕ) → GoesOn levels self levels result (Event.Entered view ∷ []) }
    {
        self.after(&Event::Entered(view))
    }
}
