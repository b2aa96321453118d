//! The rule `stage`: what a lane may draw, and whose the entry is.
ghost use Rattle.std.specs.Prelude.{◌≡◌, ◌||◌, ℕ, List, Some, true, false};
ghost use Rattle.lb_base.specs.declared.mask.Mask.{Mask};
ghost use Rattle.lb_imbalance.specs.declared.decision.Decision.{Decision};
ghost use Rattle.lb_queue.specs.declared.answers.AskReply.{AskReply};
ghost use Rattle.lb_queue.specs.declared.answers.OutCause.{OutCause};
ghost use Rattle.lb_queue.specs.declared.answers.Reply.{Reply};
ghost use Rattle.lb_queue.specs.Queue.{QueueState};
ghost use Rattle.lb_queue.specs.Requests.{has_owed};
ghost use Rattle.lb_trace.specs.declared.trace.Header.{Header};
ghost use Rattle.lb_core.specs.declared.course.Course.{Course};
ghost use Rattle.lb_core.specs.declared.entry.FigName.{FigName};
ghost use Rattle.lb_core.specs.declared.entry.OutcomeWord.{OutcomeWord};
ghost use Rattle.lb_core.specs.declared.rule.Rule.TheVariants as rule;
ghost use Rattle.lb_core.specs.declared.entry.What.TheVariants as what;
ghost use Rattle.lb_core.specs.Course.{ticked_cpu};
ghost use Rattle.lb_core.specs.Same.{same_number};
ghost use Rattle.lb_core.specs.Stage.{draws, is_owner, is_queue, push_is_due};
ghost use Rattle.lb_core.specs.Machine.{course_at, owned_queue};
ghost use Rattle.lb_core.specs.Elsewhere.{
  is_undeclared_lane,
  is_undeclared_owner,
  first_pending,
  is_first_pending,
  stage_at_rest,
  stage_of_use,
};
ghost use Rattle.lb_core.specs.Step.{breaks};
ghost use Rattle.lb_ready.specs.Ready.{IsReady};
ghost use Rattle.lb_due.specs.Turns.{TurnInForm};
ghost use Rattle.lb_judge.specs.Forms.{same_form};

use lb_base::Kind;
use lb_core::{Course, Entry, Form, Owner, What};
use lb_course::{
    is_pull, is_rebuild, is_settled, is_tick, is_wake, queue_due, target_of, ticked_cpu, turn_kind,
};
use lb_due::{all_rest, first_pending, has_owed, is_rest, looks_again, push_is_due};
use lb_engine::Engine;

/// Whether the entry breaks the rule `stage`.
#[tactic(auto, unfolding(lb_core::specs::Machine::sight, lb_core::specs::Stage::stage_allows))]
pub(crate) fn breaks_stage(engine: &Engine, entry: &Entry) -> bool
    requires { IsReady engine.now.machine }
    ensures { result ≡ breaks engine.now.machine entry.now rule.Stage }
{
    if is_undeclared(engine, entry.lane, entry.owner) {
        return true;
    }
    let course = engine.course(entry.lane);
    if !is_owner(&entry.what, entry.lane, queue_due(course), entry.owner) {
        return true;
    }
    if !draws(engine, course, entry) {
        return true;
    }
    waits_at_rest(engine, course, entry) || waits_for_push(engine, course, entry)
}

// Whether the lane is not declared, or the owner is the queue of no CPU.
fn is_undeclared(engine: &Engine, lane: u32, owner: Owner) -> bool
    requires { IsReady engine.now.machine }
    ensures { result ≡ (is_undeclared_lane engine.now.machine lane || is_undeclared_owner engine.now.machine owner) }
{
    lane >= engine.lanes()
        || match owner {
            Owner::Queue(cpu) => cpu >= engine.cpus(),
            Owner::Lane(_) | Owner::Publisher => false,
        }
}

// Whether it is the queue that is due, if the course decides it.
fn is_queue(owner: Owner, due: Option<u32>) -> bool
    ensures { result ≡ is_queue owner due }
{
    match owner {
        Owner::Queue(cpu) => match due {
            None => true,
            Some(due) => cpu == due,
        },
        Owner::Lane(_) | Owner::Publisher => false,
    }
}

// Whose an entry of each kind is.
fn is_owner(what: &What, lane: u32, due: Option<u32>, owner: Owner) -> bool
    ensures { result ≡ is_owner what.now lane due owner }
{
    match what {
        What::Row { .. }
        | What::Adopt { .. }
        | What::Look { .. }
        | What::Scan { .. }
        | What::End { .. } => match owner {
            Owner::Lane(own) => own == lane,
            Owner::Queue(_) | Owner::Publisher => false,
        },
        What::Pub { .. } => match owner {
            Owner::Publisher => true,
            Owner::Lane(_) | Owner::Queue(_) => false,
        },
        What::Did { .. }
        | What::Out { .. }
        | What::Landed { .. }
        | What::Turn { .. }
        | What::Shut
        | What::Close { .. }
        | What::Ask { .. }
        | What::Kick { .. }
        | What::Over => is_queue(owner, due),
    }
}

// Whether a form is this one.
fn is_form(form: Form, one: Form) -> bool
    ensures { result ≡ same_form form one }
{
    form == one
}

// Whether the form of the lane's course draws such an entry.
fn draws(engine: &Engine, course: &Course, entry: &Entry) -> bool
    requires ready { IsReady engine.now.machine }
    requires course { course.now ≡ course_at engine.now.machine.courses entry.now.lane }
    requires owner { is_undeclared_owner engine.now.machine entry.now.owner ≡ false }
    ensures { result
        ≡ draws course.now.form engine.now.machine.header course.now (owned_queue entry.now.owner engine.now.machine) entry.now.lane entry.now.what }
{
    match &entry.what {
        What::Row { .. } => is_rest(course.form),
        What::Adopt {
            version: _,
            kind,
            cpu,
        } => draws_use(course, *kind, *cpu),
        What::Look { .. } => draws_look(engine, course),
        What::Scan { .. } => is_form(course.form, Form::ScanDue),
        What::End { .. } => draws_end(course.form, entry.lane),
        What::Did { .. } => draws_did(course),
        What::Out { .. } => draws_out(engine, course, entry.lane, entry.owner),
        What::Landed { .. } => is_form(course.form, Form::Flight),
        What::Turn { .. } => is_form(course.form, Form::Used),
        What::Shut => is_form(course.form, Form::Used),
        What::Close { .. } => draws_close(engine, course),
        What::Ask { .. } => is_form(course.form, Form::Closed),
        What::Kick { .. } => draws_kick(course),
        What::Over => is_form(course.form, Form::Done),
        What::Pub { .. } => draws_pub(course),
    }
}

// Whether a look is due at the position in work.
#[tactic(auto, unfolding(lb_core::specs::Stage::draws))]
fn draws_look(engine: &Engine, course: &Course) -> bool
    requires { TurnInForm course.now.form engine.now.machine course.now }
    ensures { (q : QueueState) (lane p : ℕ) (x : Mask) (names : List FigName) (d : Decision) →
        result ≡ draws course.now.form engine.now.machine.header course.now q lane (what.Look p x names d) }
{
    match course.form {
        Form::Position => true,
        Form::Landed => looks_again(engine, course),
        _ => false,
    }
}

// Whether the position in work closes.
#[tactic(auto, unfolding(lb_core::specs::Stage::draws))]
fn draws_close(engine: &Engine, course: &Course) -> bool
    requires { TurnInForm course.now.form engine.now.machine course.now }
    ensures { (q : QueueState) (lane p : ℕ) (w : OutcomeWord) (i f : ℕ) →
        result ≡ draws course.now.form engine.now.machine.header course.now q lane (what.Close p w i f) }
{
    match course.form {
        Form::Looked => is_settled(course.decision),
        Form::Landed => !looks_again(engine, course),
        _ => false,
    }
}

// Whether the history may end.
#[tactic(auto, unfolding(lb_core::specs::Stage::draws))]
fn draws_end(form: Form, lane: u32) -> bool
    ensures { (h : Header) (c : Course) (q : QueueState) (cpus : Mask) → result ≡ draws form h c q lane (what.End cpus) }
{
    match form {
        Form::Rest => lane == 0,
        _ => false,
    }
}

// Whether a queue's answer is due.
#[tactic(auto, unfolding(lb_core::specs::Stage::draws))]
fn draws_did(course: &Course) -> bool
    ensures { (h : Header) (q : QueueState) (lane : ℕ) (r : Reply) → result ≡ draws course.now.form h course.now q lane (what.Did r) }
{
    match course.form {
        Form::Asked => course.command.is_some() && !is_rebuild(&course.command),
        _ => false,
    }
}

// Whether a kick is due.
#[tactic(auto, unfolding(lb_core::specs::Stage::draws))]
fn draws_kick(course: &Course) -> bool
    ensures { (h : Header) (q : QueueState) (lane : ℕ) (r : AskReply) → result ≡ draws course.now.form h course.now q lane (what.Kick r) }
{
    match course.form {
        Form::Kicking => target_of(course).is_some(),
        _ => false,
    }
}

// Whether a publication is due.
#[tactic(auto, unfolding(lb_core::specs::Stage::draws))]
fn draws_pub(course: &Course) -> bool
    ensures { (h : Header) (q : QueueState) (lane v : ℕ) → result ≡ draws course.now.form h course.now q lane (what.Pub v) }
{
    match course.form {
        Form::Asked => is_rebuild(&course.command),
        _ => false,
    }
}

// Whether a version may be taken up for a turn of this kind of the CPU.
#[tactic(auto, unfolding(lb_core::specs::Stage::draws))]
fn draws_use(course: &Course, kind: Kind, cpu: u32) -> bool
    ensures { (h : Header) (q : QueueState) (lane v : ℕ) → result ≡ draws course.now.form h course.now q lane (what.Adopt v kind cpu) }
{
    match course.form {
        Form::Serving => kind == Kind::Tick && is_ticked(course, cpu),
        Form::Due => kind == turn_kind(course) && cpu == course.cpu,
        _ => false,
    }
}

// Whether the command in service ticks the CPU.
fn is_ticked(course: &Course, cpu: u32) -> bool
    ensures { result ≡ same_number (ticked_cpu course.now.command) (Some cpu) }
{
    match ticked_cpu(&course.command) {
        None => false,
        Some(ticked) => ticked == cpu,
    }
}

// Whether tasks may leave the owner's queue.
#[tactic(auto, unfolding(lb_core::specs::Stage::draws))]
fn draws_out(engine: &Engine, course: &Course, lane: u32, owner: Owner) -> bool
    requires { is_undeclared_owner engine.now.machine owner ≡ false }
    ensures { (cause : OutCause) (to : ℕ) (ids : List ℕ) → result ≡ draws course.now.form engine.now.machine.header course.now
        (owned_queue owner engine.now.machine) lane (what.Out cause to ids) }
{
    match course.form {
        Form::Rest => lane == 0,
        Form::Asked => is_wake(&course.command),
        Form::Serving => is_tick(&course.command) && is_served(engine, course, owner),
        Form::Looked => is_pull(course.decision),
        _ => false,
    }
}

// Whether a stop or a push is due at the owner's queue.
#[tactic(auto, unfolding(lb_queue::specs::Requests::has_owed))]
fn is_served(engine: &Engine, course: &Course, owner: Owner) -> bool
    requires { is_undeclared_owner engine.now.machine owner ≡ false }
    ensures { result ≡ (has_owed (owned_queue owner engine.now.machine) || push_is_due course.now (owned_queue owner engine.now.machine)) }
{
    match owner {
        Owner::Queue(cpu) => {
            let queue = engine.queue(cpu);
            has_owed(queue) || push_is_due(course, queue)
        }
        Owner::Lane(_) | Owner::Publisher => false,
    }
}

// Whether an entry of a lane at rest has to wait: a row once a stop was served at rest; such a stop, which is
// the first that is pending, and the end, until all lanes rest.
fn waits_at_rest(engine: &Engine, course: &Course, entry: &Entry) -> bool
    requires { IsReady engine.now.machine }
    ensures { result ≡ stage_at_rest course.now.form engine.now.machine entry.now.owner entry.now.what }
{
    if course.form != Form::Rest {
        return false;
    }
    match &entry.what {
        What::Row { .. } => engine.is_closing(),
        What::Out { .. } => !all_rest(engine) || !is_first_pending(engine, entry.owner),
        What::End { .. } => !all_rest(engine),
        _ => false,
    }
}

// Whether the owner is the first queue with a pending stop.
fn is_first_pending(engine: &Engine, owner: Owner) -> bool
    requires { IsReady engine.now.machine }
    ensures { result ≡ is_first_pending (first_pending engine.now.machine) owner }
{
    match first_pending(engine) {
        None => false,
        Some(cpu) => owner == Owner::Queue(cpu),
    }
}

// Whether the `use` of a tick has to wait for a push of its CPU.
fn waits_for_push(engine: &Engine, course: &Course, entry: &Entry) -> bool
    requires ready { IsReady engine.now.machine }
    requires course { course.now ≡ course_at engine.now.machine.courses entry.now.lane }
    requires drawn { draws course.now.form engine.now.machine.header course.now (owned_queue entry.now.owner engine.now.machine) entry.now.lane entry.now.what
        ≡ true }
    ensures { result ≡ stage_of_use engine.now.machine course.now entry.now.what }
{
    match &entry.what {
        What::Adopt {
            version: _,
            kind,
            cpu,
        } => *kind == Kind::Tick && push_is_due(course, engine.queue(*cpu)),
        _ => false,
    }
}
