use call_desk::{Desk, DeskFault, MemDesk, Notice};

/// A desk that lends no list of the notices that it was told.
#[derive(Drop)]
pub struct QuietDesk {
    desk: MemDesk,
}

impl QuietDesk {
    /// The same desk without its list.
    pub fn new(desk: MemDesk) -> QuietDesk {
        QuietDesk { desk }
    }
}

impl Desk for QuietDesk {
    ghost use Rattle.std.specs.Prelude.{length};
    ghost use Rattle.call_desk.specs.Desk.{counts_alone};

    ghost seen = { λ d. counts_alone d.desk.faults d.desk.wants (length d.desk.told) };

    fn tell(&mut self, notice: &Notice) -> Result<(), DeskFault> {
        self.desk.tell(notice)
    }

    fn tellings(&self) -> u64 {
        self.desk.tellings()
    }

    fn told_list(&self) -> Option<&[Notice]> {
        None
    }
}
