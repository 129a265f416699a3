//! One call of each function.

use crate::counter::Counter;
use crate::good_line::GoodLine;
use apdu_core::{Command, Header};
use as_called::{Direct, OverT0, OverT1, send};
use card_terminal::{Answers, Op};
use command_card::{AppletOf, CommandCard, Copied};
use object_card::{Aid, CardBuilder, DataCard, ObjectCard};
use std::alloc::{AllocGlobal, Global};
use std::process::Abort;
use t0_core::{CardEnd, Plan, Plans, Silent};
use t1_core::{Conversation, EXTENSIONS, Edc, Line, Settings, TRIES, converse};
use t1_terminal::{DataApplet, Operated, run};

/// The identifier of the application.
const AID: [u8; 7] = [0xA0, 0x00, 0x00, 0x00, 0x03, 0x10, 0x10];

/// A command of the counter, whose response has three bytes.
const COUNT: Header = Header {
    cla: 0x00,
    ins: 0x20,
    p1: 0,
    p2: 3,
};

fn aid(rt: &impl Abort) -> Aid {
    Aid::new(&AID).expect(rt, "an identifier")
}

/// A card of data objects with one application, and no object.
fn card(rt: &(impl Abort + AllocGlobal)) -> CardEnd<ObjectCard> {
    let mut builder = CardBuilder::new(rt.alloc());
    builder.app(aid(rt)).expect(rt, "an application");
    CardEnd::new(builder.finish().expect(rt, "memory"))
}

fn counter(alloc: Global) -> CardEnd<CommandCard<Copied<Counter>>> {
    CardEnd::new(CommandCard::new(alloc, Copied::new(Counter::new())))
}

fn settings(rt: &impl Abort) -> Settings {
    Settings::new(Edc::Lrc, 254, TRIES, EXTENSIONS, 16_386).expect(rt, "settings")
}

/// Selects the application by whole commands. Returns the number of answers.
fn selected(rt: &(impl Abort + AllocGlobal), end: &mut CardEnd<ObjectCard>) -> usize {
    let mut answers = Answers::new(rt.alloc());
    let ops: &[Op] = &[Op::Select(aid(rt))];
    assert!(rt; end.is_at_rest() && end.card().is_idle());
    apdu_terminal::run(rt.alloc(), end, ops, &mut answers).expect(rt, "memory");
    answers.len()
}

#[test]
fn operations_by_whole_commands(rt: HostRuntime) {
    let mut end = card(&rt);
    assert!(rt; selected(&rt, &mut end) == 1);
}

/// Carries out operations over T=1.
fn ran<L: Line>(
    rt: &(impl Abort + AllocGlobal),
    line: &mut L,
    settings: Settings,
    ops: &[Op],
) -> Operated<ObjectCard> {
    let end = card(rt);
    assert!(rt; end.is_at_rest() && end.card().is_idle());
    let card = DataApplet::new(rt.alloc(), end);
    assert!(rt; card.card().is_idle());
    run(rt.alloc(), card, line, settings, ops).expect(rt, "memory")
}

#[test]
fn operations_over_t1(rt: HostRuntime) {
    let mut line = GoodLine::new(&rt, Vec::new(rt.alloc()));
    let ended = ran(&rt, &mut line, settings(&rt), &[Op::Select(aid(&rt))]);
    assert!(rt; ended.answers.len() == 1 && ended.fault.is_none());
}

/// The application of whole commands over T=1.
fn counted_at_t1(
    rt: &(impl Abort + AllocGlobal),
    commands: &[Vec<u8>],
) -> Conversation<AppletOf<Copied<Counter>>> {
    let mut line = GoodLine::new(rt, Vec::new(rt.alloc()));
    let applet = AppletOf::new(rt.alloc(), Copied::new(Counter::new()));
    converse(rt.alloc(), applet, &mut line, settings(rt), commands).expect(rt, "memory")
}

#[test]
fn an_application_over_t1(rt: HostRuntime) {
    let mut command = Vec::new(rt.alloc());
    for byte in &[0, 0x20, 0, 3, 0] {
        command.push(*byte).expect(&rt, "memory");
    }
    let mut commands = Vec::new(rt.alloc());
    commands.push(command).expect(&rt, "memory");
    let ended = counted_at_t1(&rt, &commands);
    assert!(rt; ended.answers.len() == 1 && ended.fault.is_none());
}

#[test]
fn an_application_at_t0(rt: HostRuntime) {
    let none: &[Plan] = &[];
    let command = Command::new(COUNT, &[], Some(256)).expect(&rt, "a command");
    let mut card = OverT0::new(counter(rt.alloc()));
    let answer = card
        .send(rt.alloc(), command, &mut Plans::over(none), &mut Silent)
        .expect(&rt, "an answer");
    assert!(rt; answer.data().len() == 3);
}

#[test]
fn an_application_by_whole_commands(rt: HostRuntime) {
    let command = Command::new(COUNT, &[], Some(256)).expect(&rt, "a command");
    let application = Copied::new(Counter::new());
    let mut card = Direct::new(rt.alloc(), application).expect(&rt, "memory");
    let sent = send(rt.alloc(), &mut card, command);
    assert!(rt; sent.is_ok_and(|exchange| exchange.data().len() == 3));
}

#[test]
fn an_application_over_a_line(rt: HostRuntime) {
    let command = Command::new(COUNT, &[], Some(256)).expect(&rt, "a command");
    let settings = Settings::new(Edc::Lrc, 254, TRIES, EXTENSIONS, 16_386).expect(&rt, "settings");
    let line = GoodLine::new(&rt, Vec::new(rt.alloc()));
    let application = Copied::new(Counter::new());
    let mut card = OverT1::new(rt.alloc(), application, line, settings).expect(&rt, "memory");
    let sent = send(rt.alloc(), &mut card, command);
    assert!(rt; sent.is_ok_and(|exchange| exchange.data().len() == 3));
}
