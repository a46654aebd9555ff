//! Mail that goes aloft with a cycle.

ghost use Rattle.std.specs.Prelude.{◌≡◌, ◌<◌, ◌≤◌, ◌+◌, ◌==◌, length, map, position, IfSome, vec_len, vec_capacity};
ghost use Rattle.std.specs.List.{AllByRecursion, list_any};
ghost use Rattle.cm_slots.specs.Calls.Mails.{HasSent};
ghost use Rattle.cm_slots.specs.Mails.{has_mail, mail_in, without_mail, is_due_in};
ghost use Rattle.cm_slots.specs.Mails.{goes_aloft, without_sent, with_all_sent};
ghost use Rattle.cm_slots.specs.Updates.{HasTime};

use crate::slot::Slot;
use chain_order::due;
use cm_document::Mail;
use ctl_trait::Controller;
use std::marker::Model;

/// Mail that went aloft with a cycle, and the serial of the controller that it is for.
#[derive(Debug, Drop)]
pub struct MailAloft {
    serial: u32,
    mail: Mail,
}

impl Model for MailAloft {
    ghost use Rattle.cm_model.specs.State.{MailAloft};

    ghost Value = { MailAloft };

    ghost view = { λ m. record { serial = m.serial; mail = m.mail } };
}

/// The mail of each active controller that is due in the cycle of this number goes aloft.
pub(crate) fn send_each<C: Controller>(
    slots: &mut [Slot<C>],
    cycle: u64,
    mails: &mut Vec<MailAloft>,
)
    requires room { vec_len mails.old + length slots.old ≤ vec_capacity mails.old }
    requires time { AllByRecursion HasTime slots.old }
    ensures slots { slots.new ≡ map (without_sent cycle) slots.old }
    ensures mails { mails.new.items ≡ with_all_sent cycle slots.old mails.old.items }
{
    for slot in slots.iter_mut() {
        send_one(slot, cycle, mails);
    }
}

/// That of one controller.
fn send_one<C: Controller>(slot: &mut Slot<C>, cycle: u64, mails: &mut Vec<MailAloft>)
    requires room { vec_len mails.old + 1 ≤ vec_capacity mails.old }
    requires time { HasTime slot.old }
    ensures { HasSent cycle slot.old slot.new mails.old.items mails.new.items
        (vec_capacity mails.old) (vec_capacity mails.new) }
{
    if goes_aloft(slot, cycle) {
        let serial = slot.serial();
        if let Some(mail) = slot.take_mail() {
            mails.push_reserved(MailAloft { serial, mail });
        }
    }
}

/// Whether the mail of a controller goes aloft with this cycle.
fn goes_aloft<C: Controller>(slot: &Slot<C>, cycle: u64) -> bool
    requires { HasTime slot.now }
    ensures { result ≡ goes_aloft cycle slot.now }
{
    slot.is_active() && is_due(slot, cycle)
}

/// Whether a controller is updated in this cycle, where it runs.
fn is_due<C: Controller>(slot: &Slot<C>, cycle: u64) -> bool
    requires { HasTime slot.now }
    ensures { result ≡ is_due_in cycle slot.now }
{
    match slot.divisor() {
        Some(divisor) => due(cycle, divisor),
        None => false,
    }
}

/// Whether mail waits for any of these.
pub(crate) fn some_mail_waits<C: Controller>(slots: &[Slot<C>]) -> bool
    ensures { result ≡ list_any has_mail slots.now }
{
    slots.iter().any(|slot| slot.has_mail())
}

/// The mail that is aloft for the controller of this serial, which it is handed now.
pub fn take_mail(mails: &mut Vec<MailAloft>, serial: u32) -> Option<Mail>
    ensures taken { result ≡ mail_in mails.old.items serial }
    ensures left { mails.new.items ≡ without_mail serial mails.old.items }
{
    match first_for(mails, serial) {
        Some(index) => Some(mails.remove(index).mail),
        None => None,
    }
}

/// Where the first mail for the controller of this serial stands.
fn first_for(mails: &[MailAloft], serial: u32) -> Option<usize>
    ensures first { result ≡ position (λ aloft. aloft.serial == serial) mails.now }
    ensures within { IfSome result (λ index. index < length mails.now) }
{
    mails.iter().position(|aloft| aloft.serial == serial)
}
