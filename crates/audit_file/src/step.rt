//! What a line does.
ghost use Rattle.std.specs.Prelude.{◌≡◌, ℕ, List, ◌+◌, ◌<◌, ◌^◌, ◌≤◌, length, IfOk};
ghost use Rattle.feed_reader.specs.declared.message.Message.{Message as MessageValue};
ghost use Rattle.audit_file.specs.Rules.{Log, Ruling};
ghost use Rattle.audit_file.specs.Steps.{Steps, IsSound, judged, at_set, at_caller};
ghost use Rattle.audit_file.specs.Steps.{by_ruling, is_here, by_meaning, at_event};
ghost use Rattle.audit_file.specs.Steps.{in_block, at_reply, behind_entry, step, at_end};

use crate::answer::{AuditFault, Halt, Verdict};
use crate::fields::{caller_of, header_of, reply_of};
use crate::place::{At, OpenBlock, Phase, Place};
use crate::replay::{Replay, Unruled};
use feed_events::set_of;
use feed_reader::csa_terms::simm_kinds::Name;
use feed_reader::{Meaning, Message, block_message, is_end, is_passed_over, read_line};
use mh_io::mh_units::{Bytes, Text};
use std::alloc::Global;

/// The line isn't in the format.
fn not_audit(line: u32) -> Halt
    ensures { result ≡ Halt.Ends (Err (AuditFault.NotAudit line)) }
{
    Halt::Ends(Err(AuditFault::NotAudit { line }))
}

/// The line of the next set.
fn at_set<M: Replay>(
    alloc: Global,
    machine: &mut M,
    names: &[Name],
    place: Place,
    n: u32,
    line: &[u8],
) -> Result<At, Halt>
    requires few { length names.now < 2 ^ 32 }
    requires count { length names.now ≡ length (M.base machine.old).terms }
    requires sound { IsSound names.now n place }
    ensures steps { (reply : List ℕ) → Steps
        (judged (M.rule (M.base machine.old)) n place (M.log machine.old) reply
        (at_set names.now place line.now)) (M.log machine.new) reply result }
    ensures sound { IfOk result (λ at. IsSound names.now (n + 1) at.place) }
    ensures base { M.base machine.new ≡ M.base machine.old }
{
    let Some(name) = names.get(place.sets as usize) else {
        return Err(not_audit(n));
    };
    let Some(count) = header_of(name.bytes(), line) else {
        return Err(not_audit(n));
    };
    machine.begin(alloc, place.sets)?;
    let (entry, phase) = if count == 0 {
        (0, Phase::AtSet)
    } else {
        (1, Phase::AtCaller)
    };
    Ok(At {
        place: Place {
            sets: place.sets + 1,
            entry,
            count,
            total: place.total,
        },
        phase,
    })
}

/// The line of a caller.
fn at_caller(place: Place, n: u32, line: &[u8]) -> Result<At, Halt>
    ensures steps { (rule : Log → MessageValue → Ruling) (log : Log) (reply : List ℕ) → Steps
        (judged rule n place log reply (at_caller place line.now)) log reply result }
    ensures place { IfOk result (λ at. at.place ≡ place) }
{
    match caller_of(line) {
        Some(caller) => Ok(At {
            place,
            phase: Phase::AtEvent { caller },
        }),
        None => Err(not_audit(n)),
    }
}

/// Answers the message that began in the line `first`.
fn rule_event<M: Replay>(
    alloc: Global,
    machine: &mut M,
    reply: &mut Text,
    place: Place,
    caller: u32,
    first: u32,
    message: Message,
) -> Result<At, Halt>
    ensures steps { Steps (by_ruling first place (M.log machine.old) caller
        (M.rule (M.base machine.old) (M.log machine.old) message)) (M.log machine.new) reply.new
        result }
    ensures place { IfOk result (λ at. at.place ≡ place) }
    ensures base { M.base machine.new ≡ M.base machine.old }
{
    match machine.apply(alloc, caller, message) {
        Ok(answer) => {
            *reply = answer;
            Ok(At {
                place,
                phase: Phase::AtReply,
            })
        }
        Err(Unruled::NotEvent) => Err(not_audit(first)),
        Err(Unruled::Full) => Err(Halt::Ends(Err(AuditFault::Full {
            set: place.sets,
            entry: place.entry,
        }))),
        Err(Unruled::Memory) => Err(Halt::Memory),
    }
}

/// Whether the name is that of the set that was begun last.
fn is_here(names: &[Name], place: Place, set: &Name) -> bool
    ensures { result ≡ is_here names.now place set.now }
{
    match names.get(place.sets.saturating_sub(1) as usize) {
        Some(name) => set.cmp(name).is_eq(),
        None => false,
    }
}

/// A line before a message, or its first, by its meaning.
fn by_meaning<M: Replay>(
    alloc: Global,
    machine: &mut M,
    reply: &mut Text,
    names: &[Name],
    place: Place,
    caller: u32,
    n: u32,
    meaning: Meaning,
) -> Result<At, Halt>
    ensures steps { Steps (judged (M.rule (M.base machine.old)) n place (M.log machine.old)
        reply.old (by_meaning n names.now place caller meaning)) (M.log machine.new) reply.new
        result }
    ensures place { IfOk result (λ at. at.place ≡ place) }
    ensures base { M.base machine.new ≡ M.base machine.old }
{
    match meaning {
        Meaning::Tells { message } => {
            if !is_here(names, place, set_of(&message)) {
                return Err(not_audit(n));
            }
            rule_event(alloc, machine, reply, place, caller, n, message)
        }
        Meaning::Opens { kind, set } => {
            if !is_here(names, place, &set) {
                return Err(not_audit(n));
            }
            Ok(At {
                place,
                phase: Phase::InBlock(OpenBlock {
                    caller,
                    first: n,
                    kind,
                    set,
                    block: Bytes::new(alloc),
                }),
            })
        }
        Meaning::Bad => Err(not_audit(n)),
    }
}

/// The first line of a message, or one that is passed over.
fn at_event<M: Replay>(
    alloc: Global,
    machine: &mut M,
    reply: &mut Text,
    names: &[Name],
    place: Place,
    caller: u32,
    n: u32,
    line: &[u8],
) -> Result<At, Halt>
    ensures steps { Steps (judged (M.rule (M.base machine.old)) n place (M.log machine.old)
        reply.old (at_event n names.now place caller line.now)) (M.log machine.new) reply.new
        result }
    ensures place { IfOk result (λ at. at.place ≡ place) }
    ensures base { M.base machine.new ≡ M.base machine.old }
{
    if is_passed_over(line) {
        return Ok(At {
            place,
            phase: Phase::AtEvent { caller },
        });
    }
    let meaning = read_line(alloc, line)?;
    by_meaning(alloc, machine, reply, names, place, caller, n, meaning)
}

/// A line of a block.
fn in_block<M: Replay>(
    alloc: Global,
    machine: &mut M,
    reply: &mut Text,
    place: Place,
    mut held: OpenBlock,
    line: &[u8],
) -> Result<At, Halt>
    ensures steps { (n : ℕ) → Steps
        (judged (M.rule (M.base machine.old)) n place (M.log machine.old) reply.old
        (in_block place held line.now)) (M.log machine.new) reply.new result }
    ensures place { IfOk result (λ at. at.place ≡ place) }
    ensures base { M.base machine.new ≡ M.base machine.old }
{
    if is_end(line) {
        let OpenBlock {
            caller,
            first,
            kind,
            set,
            block,
        } = held;
        let message = block_message(kind, set, block);
        return rule_event(alloc, machine, reply, place, caller, first, message);
    }
    held.block.extend(line)?;
    held.block.push(b'\n')?;
    Ok(At {
        place,
        phase: Phase::InBlock(held),
    })
}

/// Behind an entry.
fn behind_entry(place: Place) -> At
    requires within { place.entry ≤ place.count }
    requires few { place.total + 1 < 2 ^ 32 }
    ensures value { result ≡ behind_entry place }
    ensures sets { result.place.sets ≡ place.sets }
    ensures within { result.place.entry ≤ result.place.count }
    ensures total { result.place.total ≡ place.total + 1 }
{
    let total = place.total + 1;
    if place.entry == place.count {
        return At {
            place: Place { total, ..place },
            phase: Phase::AtSet,
        };
    }
    At {
        place: Place {
            entry: place.entry + 1,
            total,
            ..place
        },
        phase: Phase::AtCaller,
    }
}

/// The reply line of an entry.
fn at_reply(place: Place, reply: &[u8], n: u32, line: &[u8]) -> Result<At, Halt>
    requires within { place.entry ≤ place.count }
    requires few { place.total + 1 < 2 ^ 32 }
    ensures steps { (rule : Log → MessageValue → Ruling) (log : Log) → Steps
        (judged rule n place log reply.now (at_reply place line.now)) log reply.now result }
    ensures sets { IfOk result (λ at. at.place.sets ≡ place.sets) }
    ensures within { IfOk result (λ at. at.place.entry ≤ at.place.count) }
    ensures total { IfOk result (λ at. at.place.total ≡ place.total + 1) }
{
    let Some(text) = reply_of(line) else {
        return Err(not_audit(n));
    };
    if text != reply {
        return Err(Halt::Ends(Ok(Verdict::No {
            set: place.sets,
            entry: place.entry,
        })));
    }
    Ok(behind_entry(place))
}

/// What the line `n` does.
#[tactic(auto, unfolding(crate::specs::Steps::reading))]
pub(crate) fn step<M: Replay>(
    alloc: Global,
    machine: &mut M,
    reply: &mut Text,
    names: &[Name],
    at: At,
    n: u32,
    line: &[u8],
) -> Result<At, Halt>
    requires few { length names.now < 2 ^ 32 }
    requires count { length names.now ≡ length (M.base machine.old).terms }
    requires sound { IsSound names.now n at.place }
    ensures steps { Steps (step (M.rule (M.base machine.old)) names.now n
        (record { at = at; log = M.log machine.old; reply = reply.old }) line.now)
        (M.log machine.new) reply.new result }
    ensures sound { IfOk result (λ at. IsSound names.now (n + 1) at.place) }
    ensures base { M.base machine.new ≡ M.base machine.old }
{
    let At { place, phase } = at;
    match phase {
        Phase::AtSet => at_set(alloc, machine, names, place, n, line),
        Phase::AtCaller => at_caller(place, n, line),
        Phase::AtEvent { caller } => {
            at_event(alloc, machine, reply, names, place, caller, n, line)
        }
        Phase::InBlock(held) => in_block(alloc, machine, reply, place, held, line),
        Phase::AtReply => at_reply(place, reply.as_slice(), n, line),
    }
}

/// What the end of the input before the line `n` comes to.
pub(crate) fn at_end(names: &[Name], at: &At, n: u32) -> Result<Verdict, AuditFault>
    ensures { result ≡ at_end names.now n at.now }
{
    match at.phase {
        Phase::AtSet if at.place.sets as usize == names.len() => Ok(Verdict::Yes {
            sets: at.place.sets,
            entries: at.place.total,
        }),
        _ => Err(AuditFault::NotAudit { line: n }),
    }
}
