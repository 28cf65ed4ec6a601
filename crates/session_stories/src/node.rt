//! The node of a story, whose connections are served to their ends. Nothing else of this program
//! calls `node_threads`.
use crate::counted::counted;
use crate::line::Line;
use crate::name::{Name, Who};
use crate::stage::Stage;
use crate::story::{Story, Trait};
use ini_config::{Group, Settings, read_settings};
use node_core::RestartReply;
use node_threads::{
    Calling, Context, Gate, NodePlace, Observer, Opener, Point, Sender, serve_connection,
};
use pg_frames::MessageLimit;
use pg_ids::{Boot, DatabaseNo, PeerNo};
use startup::Reports;
use std::alloc::{AllocError, Global};
use std::cell::{Cell, RefCell};
use std::io;
use std::io::ErrorKind;
use std::sync::{Arc, Wait};

// What connects a client to servers and peers, and is told of its links.
#[derive(Drop)]
struct Dials<'a> {
    stage: &'a Arc<Stage, Global>,
    client: Name,
}

impl Dials<'_> {
    fn dial(&self, to: &str, number: u16) -> io::Result<Line> {
        let server = self.stage.next_server();
        self.stage.say_dialed(self.client, to, number);
        if self.stage.call(self.client.who).is_some() {
            return Err(io::Error::from(ErrorKind::ConnectionRefused));
        }
        if !self.stage.has(server) {
            self.stage.say_of(server, "refuses");
            return Err(io::Error::from(ErrorKind::ConnectionRefused));
        }
        self.stage.say_of(server, "accepts");
        Ok(Line::new(self.stage, server, self.client.who)?)
    }
}

impl<'a> Opener for Dials<'a> {
    ghost use Rattle.std.specs.Prelude.{⊤};

    type Stream = Line;

    type Observer = Dials<'a>;

    ghost connects = { λ _ _ _. ⊤ };

    ghost cancels = { λ _ _ _. ⊤ };

    ghost reaches = { λ _ _ _. ⊤ };

    fn observer(&self) -> &Dials<'a> {
        self
    }

    fn server<R: Wait>(&self, _rt: &R, database: DatabaseNo) -> io::Result<Line> {
        self.dial("connects to database", u16::from(database.get()))
    }

    fn cancel<R: Wait>(&self, _rt: &R, database: DatabaseNo) -> io::Result<Line> {
        self.dial("cancels at database", u16::from(database.get()))
    }

    fn peer<R: Wait>(&self, _rt: &R, peer: PeerNo) -> io::Result<Line> {
        self.dial("connects to peer", peer.get())
    }

    fn is_quiet(&self, stream: &Line) -> bool {
        self.stage.say_of_two(self.client, "looks at", stream.name);
        !self.stage.story.is(stream.name, Trait::Changed)
    }

    fn is_gone(&self) -> bool {
        self.stage.story.is(self.client, Trait::Gone)
    }
}

impl Observer<Line> for Dials<'_> {
    fn link_given(&self, stream: &Line) {
        self.stage.say_of_two(self.client, "has", stream.name);
    }

    fn link_returned(&self) {
        self.stage.say_of(self.client, "has no link");
    }

    fn message_refused(&self, _database: DatabaseNo, from: Sender, bytes: usize, _limit: u32) {
        self.stage
            .say_refused(self.client, from == Sender::Client, bytes);
    }
}

// A gate that shows each point.
#[derive(Drop)]
struct Shown<'a>(&'a Arc<Stage, Global>);

impl Gate for Shown<'_> {
    fn pass<R: Wait>(&self, _rt: &R, point: Point) {
        self.0.say_point(word_of(point));
    }
}

fn word_of(point: Point) -> &'static str {
    match point {
        Point::Acquired => "Acquired",
        Point::Ready => "Ready",
        Point::Ordered => "Ordered",
        Point::Carried => "Carried",
    }
}

// The gate of clients: when one first has a link the guests come, one after another.
#[derive(Drop)]
struct Visited<'a> {
    alloc: Global,
    stage: &'a Arc<Stage, Global>,
    reports: &'a Reports,
    calling: RefCell<Calling<Line>>,
    have_come: Cell<bool>,
}

impl Gate for Visited<'_> {
    fn pass<R: Wait>(&self, rt: &R, point: Point) {
        self.stage.say_point(word_of(point));
        if point == Point::Acquired && !self.have_come.replace(true) {
            if let Ok(mut calling) = self.calling.try_borrow_mut() {
                let visit = Visit {
                    alloc: self.alloc,
                    stage: self.stage,
                    reports: self.reports,
                    gate: &Shown(self.stage),
                };
                visit.all(rt, &mut calling, Who::Guest);
            }
        }
    }
}

// What connections are served with.
#[derive(Drop)]
struct Visit<'a, G> {
    alloc: Global,
    stage: &'a Arc<Stage, Global>,
    reports: &'a Reports,
    gate: &'a G,
}

// More clients than a story has.
const CLIENTS: u32 = 1_000;

impl<G: Gate> Visit<'_, G> {
    // The clients of this side come, one after another.
    fn all<R: Wait>(&self, rt: &R, calling: &mut Calling<Line>, who: Who) {
        for number in 1..CLIENTS {
            let client = Name { who, number };
            if !self.stage.story.has(client) || self.is_over(who) {
                return;
            }
            self.one(rt, calling, client);
        }
    }

    // After a call has failed only those come that come later.
    fn is_over(&self, who: Who) -> bool {
        who != Who::Later && self.stage.failed_at().is_some()
    }

    fn one<R: Wait>(&self, rt: &R, calling: &mut Calling<Line>, client: Name) {
        let Ok(mut stream) = Line::new(self.stage, client, client.who) else {
            self.stage.say_of(client, "finds no memory");
            return;
        };
        let dials = Dials {
            stage: self.stage,
            client,
        };
        let context = Context {
            rt,
            gate: self.gate,
        };
        let limit = limit_of(&self.stage.story);
        serve_connection(
            context,
            self.alloc,
            calling,
            &dials,
            self.reports,
            &limit,
            &mut stream,
        );
    }
}

// How long a message may be.
fn limit_of(story: &Story) -> MessageLimit {
    match story.limit {
        Some(limit) => MessageLimit::new(limit).unwrap_or(MessageLimit::DEFAULT),
        None => MessageLimit::DEFAULT,
    }
}

// Why a story can't be played.
#[derive(Clone, Copy, PartialEq, Eq)]
pub(crate) enum Unplayed {
    Settings,
    Memory,
}

impl From<AllocError> for Unplayed {
    fn from(_e: AllocError) -> Unplayed {
        Unplayed::Memory
    }
}

fn alone(alloc: Global, settings: Settings) -> Result<Vec<Settings>, AllocError> {
    Ok(vec![in alloc; settings]?)
}

// The node of a story.
fn calling_of(alloc: Global, story: &Story) -> Result<Calling<Line>, Unplayed> {
    let Ok(settings) = read_settings(alloc, story.settings.as_str()) else {
        return Err(Unplayed::Settings);
    };
    let Ok(group) = Group::check(alone(alloc, settings)?) else {
        return Err(Unplayed::Settings);
    };
    let (_group, mut places) = NodePlace::of_group(alloc, group)?;
    let Some(at) = places.pop() else {
        return Err(Unplayed::Settings);
    };
    Ok(Calling::new(alloc, at, story.seed, Boot(story.boot))?)
}

fn reports_of(alloc: Global, story: &Story) -> Result<Reports, Unplayed> {
    let mut reports = Reports::new(alloc);
    for (name, value) in &story.reports {
        if reports.add(name.as_str(), value.as_str()).is_err() {
            return Err(Unplayed::Settings);
        }
    }
    Ok(reports)
}

const FIRST_GUEST: Name = Name {
    who: Who::Guest,
    number: 1,
};

// The story is played at a node of its own.
pub(crate) fn play<R: Wait>(
    rt: &R,
    alloc: Global,
    stage: &Arc<Stage, Global>,
) -> Result<(), Unplayed> {
    let reports = reports_of(alloc, &stage.story)?;
    let mut calling = calling_of(alloc, &stage.story)?;
    let guests = calling.split().ok_or(Unplayed::Memory)?;
    let gate = Visited {
        alloc,
        stage,
        reports: &reports,
        calling: RefCell::new(guests),
        have_come: Cell::new(false),
    };
    let visit = Visit {
        alloc,
        stage,
        reports: &reports,
        gate: &gate,
    };
    visit.all(rt, &mut calling, Who::Client);
    restart(rt, stage, &mut calling);
    stage.say(counted(alloc, "clients", calling.caller()));
    if stage.story.has(FIRST_GUEST) {
        count_guests(alloc, stage, &gate);
    }
    if stage.failed_at().is_some() {
        stage.calm();
        visit.all(rt, &mut calling, Who::Later);
    }
    Ok(())
}

// The node is started anew.
fn restart<R: Wait>(rt: &R, stage: &Stage, calling: &mut Calling<Line>) {
    for _start in 0..stage.story.restarts {
        let reply = calling.restart(rt);
        stage.say_restart(reply == RestartReply::Restarted);
    }
}

fn count_guests(alloc: Global, stage: &Stage, gate: &Visited<'_>) {
    if let Ok(calling) = gate.calling.try_borrow() {
        stage.say(counted(alloc, "guests", calling.caller()));
    }
}
