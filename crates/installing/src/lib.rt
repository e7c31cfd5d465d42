// Installs of a target. Nobody's slots move here: the members take up the new target in their next heartbeats.
#![tactic(auto)]

ghost use Rattle.std.specs.Prelude.{◌≡◌, List, ℕ};
ghost use Rattle.rules.specs.Event as E;
ghost use Rattle.rules.specs.Effects.{retargeted, install_effect};
ghost use Rattle.rules.specs.Step.{step};
ghost use Rattle.tables.specs.View.{slots_in};
ghost use Rattle.events.specs.Outcomes.{Becomes, outcome_of, all_but_target, carried};

mod retargeting; // retargeting.rt: the records of an install

use events::Outcome;
use group::{Group, epochs};
use rules::{Answer, NO_SLOT, Refusal, SLOTS, Slot};
use tables::Tables;

// The target is replaced; who holds what stays.
fn replace(tables: &mut Tables, target: &[u8; SLOTS])
    ensures slots { slots_in tables.new ≡ retargeted (slots_in tables.old) target.now }
    ensures holder { tables.new.holder ≡ tables.old.holder }
    ensures waiting { tables.new.waiting ≡ tables.old.waiting }
{
    numbers::put_all(&mut tables.target, target);
}

// An install that no row of the table refuses: the target replaced, and T becomes G.
fn install_at(
    group: &mut Group,
    target: &[u8; SLOTS],
    records: &mut [u8],
) -> Result<Outcome, Refusal>
    ensures { (l : List ℕ) → Becomes all_but_target (outcome_of result) group.old group.new records.new l (λ g. carried g (install_effect g target.now) records.old l) }
{
    let epoch = group.head.epoch;
    let written = retargeting::store_install(records, &group.tables, target, epoch)?;
    replace(&mut group.tables, target);
    group.head.target_epoch = epoch;
    Ok(Outcome {
        answer: Answer::Done,
        written,
    })
}

// An install: an epoch, and for each slot a place or 255 for none; judged with the rule 'No slot left over' or without. Writes the records to the start of the
// buffer and leaves the rest of it alone.
pub fn install(
    group: &mut Group,
    rule: bool,
    epoch: i32,
    entries: &[u8],
    records: &mut [u8],
) -> Result<Outcome, Refusal>
    ensures { (l : List ℕ) → Becomes all_but_target (outcome_of result) group.old group.new records.new l (λ g. step g (E.install rule epoch entries.now) records.old l) }
{
    let Ok(target) = <&[u8; SLOTS]>::try_from(entries) else {
        return Err(Refusal::BadTarget(Slot(NO_SLOT)));
    };
    if !epochs::is_epoch(epoch, group.head.epoch) {
        return Err(Refusal::Stale);
    }
    if group.head.target_epoch == group.head.epoch {
        return Err(Refusal::Already);
    }
    if let Some(bad) = group.first_bad(rule, entries) {
        return Err(Refusal::BadTarget(Slot(bad as u16)));
    }
    install_at(group, target, records)
}
