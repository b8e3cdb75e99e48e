// One member alone on the stage: it issues commands, which wait until it settles, and delivers them through its history.
#![tactic(auto)]

ghost use Rattle.std.specs.Prelude.{◌≡◌, None, []};
ghost use Rattle.std.specs.Allocator.{alloc_error};
ghost use Rattle.stage.specs.declared.IssueError.TheVariants.{Refused, Memory};
ghost use Rattle.stage.specs.Stage.{number_of, Stands, is_inside, entered, Issued, Settled, level_of};

use commands::types::{Action, Channel, Command, MemberId, Refusal};
use history::Record;
use std::alloc::{AllocError, AllocFailed, Global};
use thiserror::Error;

// How many commands a member may issue in one view.
const MOST: u32 = 1024;

#[derive(Drop)]
pub struct Stage {
    member: MemberId,
    // how many commands it has issued in view 0; None: it is in no view
    issued: Option<u32>,
    waiting: Vec<Command>,
    levels: [u16; 512],
    done: Record,
}

// Why a member may not issue a command.
#[derive(Clone, Copy, Debug, Error)]
pub enum NotIssued {
    #[error("the member is in no view")]
    Outside,
    #[error("the member has issued all that it may in this view")]
    Limit,
}

impl NotIssued {
    // Its number in the table of refusals, which is what the programs print of it.
    pub fn number(self) -> u8
        ensures { result ≡ number_of self }
    {
        match self {
            NotIssued::Outside => 3,
            NotIssued::Limit => 8,
        }
    }
}

// Why a command is not issued.
#[derive(Clone, Copy, Debug, Error)]
pub enum IssueError {
    #[error(transparent)]
    Refused(NotIssued),
    #[error(transparent)]
    Memory(AllocError),
}

// By hand, since a contract names the error that `?` makes, and a derive states none.
impl From<NotIssued> for IssueError {
    ghost from_gives = { λ refusal r. r ≡ Refused refusal };

    fn from(refusal: NotIssued) -> IssueError {
        IssueError::Refused(refusal)
    }
}

impl<T: Drop> From<AllocFailed<T>> for IssueError {
    ghost from_gives = { λ _ r. r ≡ Memory alloc_error };

    fn from(e: AllocFailed<T>) -> IssueError {
        IssueError::Memory(e.into())
    }
}

impl Stage {
    // A member in no view, with nothing done.
    #[tactic(auto, unfolding(history::specs::History::first_levels))]
    pub fn new(heap: Global, member: MemberId) -> Stage
        ensures { Stands result [] × (result.member ≡ member) × (result.issued ≡ None) × (result.waiting.items ≡ []) }
    {
        Stage {
            member,
            issued: None,
            waiting: Vec::new(heap),
            levels: [0; 512],
            done: Record::new(),
        }
    }

    // View 0 is given, with the member in it.
    pub fn enter(&mut self)
        ensures { self.new ≡ entered self.old }
    {
        self.issued.get_or_insert(0);
    }

    // One command more, which waits; or a refusal, which leaves all as it was.
    pub fn issue(&mut self, action: Action) -> Result<(), IssueError>
        ensures { Issued self.old self.new action result }
    {
        let issued = self.issued.ok_or(NotIssued::Outside)?;
        if issued >= MOST {
            return Err(NotIssued::Limit.into());
        }
        let next = issued + 1;
        let command = Command::new(0, self.member, next, next, action).unwrap();
        self.waiting.push(command)?;
        self.issued = Some(next);
        Ok(())
    }

    // Delivers all that waits, and says in how many rounds something changed.
    pub fn settle(&mut self) -> u64
        ensures { Settled self.old self.new result }
    {
        let rounds = if self.waiting.is_empty() { 0 } else { 1 };
        self.done = self.done.deliver_all(&mut self.levels, &self.waiting);
        self.waiting.clear();
        rounds
    }

    pub fn is_inside(&self) -> bool
        ensures { result ≡ is_inside self.now }
    {
        self.issued.is_some()
    }

    pub fn done(&self) -> Record
        ensures { result ≡ self.now.done }
    {
        self.done
    }

    // The level of each channel.
    pub fn levels(&self) -> &[u16; 512]
        ensures { result.now ≡ self.now.levels }
    {
        &self.levels
    }

    pub fn level(&self, channel: u64) -> Result<u16, Refusal>
        ensures { result ≡ level_of self.now channel }
    {
        let channel = Channel::try_from(channel)?;
        Ok(self.levels[usize::from(channel.index())])
    }
}
