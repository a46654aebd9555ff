//! Laws of the definitions of histories: each is the contract of a function that does nothing.

ghost use Rattle.std.specs.Prelude.{◌≡◌, ◌<◌, ◌≤◌, ℕ, ◌+◌, ℤ, true, List, [], ◌++◌, length, map, Option, None};
ghost use Rattle.cm_document.specs.declared.call.Call.{Call};
ghost use Rattle.cm_document.specs.declared.description.Description.{Description};
ghost use Rattle.cm_document.specs.declared.document.Document.{Document};
ghost use Rattle.cm_document.specs.ScriptLaws.{MeetsRules};
ghost use Rattle.cm_model.specs.declared.blanks.Blanks.{Blanks};
ghost use Rattle.fixed_num.specs.declared.value.Value.{Value};
ghost use Rattle.cm_document.specs.declared.call.Mail.{Mail};
ghost use Rattle.cm_model.specs.declared.data.CtlData.{CtlData};
ghost use Rattle.cm_model.specs.declared.entry.Entry.{Entry};
ghost use Rattle.cm_model.specs.declared.tick.Tick.{Tick};
ghost use Rattle.cm_model.specs.Controllers.{ctl_step, KeepsChained};
ghost use Rattle.cm_model.specs.Cycle.{IsIdle, cycle, updated_in, updates};
ghost use Rattle.cm_model.specs.Machine.{IsLegal, LegalFrom, state_after, is_enabled};
ghost use Rattle.cm_model.specs.State.{State, IsStill, active, boot};
ghost use Rattle.cm_model.specs.Values.{InterfaceValue};
ghost use Rattle.cm_model.specs.Scheduled.{Advanced, advance, settle, scheduled, scheduled_in_steps};
ghost use Rattle.cm_model.specs.Histories.{ends_in, decided_in};
ghost use Rattle.cm_model.specs.Sessions.{IsConsole, IsWhole, entries_by};

/// Each scheduled history is legal: from boot each of its entries is a step of the written manager.
pub fn scheduled_histories_are_legal()
    ensures { (document : Document) (blanks : Blanks)
        → IsLegal document.description blanks (length document.script.sessions) (scheduled document blanks) }
{}

/// Each history that is scheduled for a document whose script meets the rules of scripts is whole for it: it has every
/// session's lines, each once and in order, behind each request the Told of its ticket, the begin and the end of each
/// cycle, the close, and nothing else.
pub fn scheduled_histories_are_whole()
    ensures { (document : Document) (blanks : Blanks)
        → MeetsRules document.script → IsWhole document (scheduled document blanks) }
{}

/// The history of the job `steps` is legal, whatever the turns of the schedule are.
pub fn stepped_histories_are_legal()
    ensures { (document : Document) (blanks : Blanks)
        → IsLegal document.description blanks (length document.script.sessions) (scheduled_in_steps document blanks) }
{}

/// It is whole for a document whose script meets the rules: turns change the order in which sessions and loop go on,
/// and no more.
pub fn stepped_histories_are_whole()
    ensures { (document : Document) (blanks : Blanks)
        → MeetsRules document.script → IsWhole document (scheduled_in_steps document blanks) }
{}

/// A legal history that is whole for a document leaves the loop closed.
pub fn whole_histories_leave_the_loop_closed()
    ensures { (document : Document) (history : List Entry) (s : State)
        → LegalFrom s history → IsWhole document history → (state_after s history).closed ≡ true }
{}

/// What is counted in a history adds up, and so never falls as the history grows: the cycles that have ended, and the
/// decisions that were told. Of no entries both are 0.
pub fn counts_add_up_and_never_fall()
    ensures none { (ends_in [] ≡ 0) × (decided_in [] ≡ 0) }
    ensures ends { (made more : List Entry) → ends_in (made ++ more) ≡ ends_in made + ends_in more }
    ensures decided { (made more : List Entry) → decided_in (made ++ more) ≡ decided_in made + decided_in more }
    ensures never_fall { (made more : List Entry)
        → (ends_in made ≤ ends_in (made ++ more)) × (decided_in made ≤ decided_in (made ++ more)) }
{}

/// After a legal history from boot as many cycles have ended as the history has ends.
pub fn as_many_cycles_have_ended_as_a_history_has_ends()
    ensures { (d : Description) (blanks : Blanks) (sessions : ℕ) (history : List Entry)
        → IsLegal d blanks sessions history
        → (state_after (boot d blanks sessions) history).ended ≡ ends_in history }
{}

/// In a legal history each end is the loop's.
pub fn each_end_is_the_loops()
    ensures { (s : State) (history : List Entry)
        → LegalFrom s history → ends_in (entries_by s.sessions history) ≡ ends_in history }
{}

/// A session that settled cannot advance: it has nothing left to do, or its next call is not enabled.
pub fn settled_sessions_cannot_advance()
    ensures { (who : ℕ) (a : Advanced) → advance who (settle who a) ≡ None }
{}

/// A session makes console calls alone: begin, end and close are never enabled for it.
pub fn sessions_make_console_calls()
    ensures { (s : State) (who : ℕ) (call : Call) → who < s.sessions → is_enabled s who call ≡ true → IsConsole call }
{}

/// No step of a controller changes whether it runs, and whether it takes its references from the interfaces.
pub fn steps_keep_whether_a_controller_is_chained()
    ensures { (ctl : CtlData) (tick : Tick) (states : List ℤ) (refs : List Value) (mail : Option Mail)
        → KeepsChained ctl (ctl_step ctl tick states refs mail).after }
{}

/// The updates of a cycle leave each controller active that was, and make none active.
pub fn updates_leave_active_who_was()
    ensures { (s : State) (values : List InterfaceValue) (place : ℕ)
        → active (record s { loaded = (updates s values).loaded }) place ≡ active s place }
{}

/// A cycle tells of the controllers that it updates, in order, and of no other.
pub fn cycles_tell_of_whom_they_update()
    ensures { (s : State) → map (λ ran. ran.serial) (cycle s).happened.ran ≡ map (λ l. l.serial) (updated_in s) }
{}

/// While no controller is active a cycle updates none and stops none, and its end changes no more than the components
/// make of it.
pub fn idle_cycles_are_of_components_alone()
    ensures { (s : State) → IsStill s → IsIdle s (cycle s) }
{}
