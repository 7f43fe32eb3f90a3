ghost use Rattle.std.specs.Prelude.{◌≡◌, ℕ, None, option_map, OnOk};
ghost use Rattle.mh_io.specs.Told.{Appends};
ghost use Rattle.mh_io.specs.Sink.{BreaksOff};
ghost use Rattle.call_desk.specs.Desk.{Tells, counts_alone};
ghost use Rattle.call_desk.specs.Text.{notice_text};

use crate::desk::Desk;
use crate::fault::DeskFault;
use crate::notice::{Notice, push_notice};
use mh_io::{Sink, put_all};
use mh_units::Text;
use std::alloc::Global;

/// A desk that writes the line of each notice to a sink. It doesn't tell the notices that it
/// was told.
///
/// A fault of the sink is a fault of the desk; a front of the line may have gone out then.
#[derive(Drop)]
pub struct SinkDesk<K> {
    sink: K,
    line: Text,
    wants: u64,
    tellings: u64,
}

impl<K> SinkDesk<K> {
    /// A desk over a sink. It takes no memory.
    pub fn new(alloc: Global, sink: K) -> SinkDesk<K>
        ensures sink { result.sink ≡ sink }
        ensures wants { result.wants ≡ 0 }
        ensures tellings { result.tellings ≡ 0 }
    {
        SinkDesk {
            sink,
            line: Text::new(alloc),
            wants: 0,
            tellings: 0,
        }
    }

    /// Lends the sink. It takes no memory.
    pub fn sink(&self) -> &K
        ensures { result.now ≡ self.now.sink }
    {
        &self.sink
    }
}

impl<K: Sink + Drop> Desk for SinkDesk<K> {
    ghost use Rattle.call_desk.specs.Desk.{counts_alone};

    ghost seen = { λ d. counts_alone (K.seen d.sink).faults d.wants d.tellings };

    fn tell(&mut self, notice: &Notice) -> Result<(), DeskFault>
        ensures tells { Tells
            (counts_alone (K.seen self.old.sink).faults self.old.wants self.old.tellings)
            (counts_alone (K.seen self.new.sink).faults self.new.wants self.new.tellings)
            notice.now result }
        ensures holds { OnOk result (Appends (K.seen self.old.sink).holds
            (K.seen self.new.sink).holds (notice_text notice.now)) }
        ensures cut { result ≡ Err DeskFault.Failed → (put : ℕ) × BreaksOff (K.seen self.old.sink)
            (K.seen self.new.sink) (notice_text notice.now) put }
        ensures stands { result ≡ Err DeskFault.Memory → self.new.sink ≡ self.old.sink }
    {
        self.line.clear();
        if push_notice(&mut self.line, notice).is_err() {
            self.wants = self.wants.saturating_add(1);
            return Err(DeskFault::Memory);
        }
        match put_all(&mut self.sink, self.line.as_slice()) {
            Ok(()) => {
                self.tellings = self.tellings.saturating_add(1);
                Ok(())
            }
            Err(_) => Err(DeskFault::Failed),
        }
    }

    fn tellings(&self) -> u64
        ensures { result ≡ self.now.tellings }
    {
        self.tellings
    }

    fn told_list(&self) -> Option<&[Notice]>
        ensures { option_map (λ list. list.now) result ≡ None }
    {
        None
    }
}
