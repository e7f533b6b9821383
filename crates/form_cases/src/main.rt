// Writes what each line of the input asks, then answers of each kind, with every loss and every refusal, then lines of reports.
#![tactic(auto)]

use answers::report::{End, GivenNode, GivenRoute};
use answers::write::write;
use calculus::answer::{Answer, Loss, Refusal, ShownAssociation};
use calculus::network::{Kind, Node};
use calculus::number::{ItemNumber, Spi};
use calculus::request::{Request, Sender};
use forms::line::next_line;
use forms::read::read;
use inputs::read_full;
use std::io::{self, Print};

fn put_number(rt: &HostRuntime, n: u64) -> io::Result<()> {
    print!(rt; " {n}")
}

// Bytes, and a newline.
fn put_all(rt: &HostRuntime, out: &[u8]) -> io::Result<()> {
    rt.write_all(out)?;
    rt.write_all(b"\n")
}

// An answer at place 4 of forty dots, and all forty.
fn put_answer(rt: &HostRuntime, answer: Result<Answer, Refusal>) -> io::Result<()> {
    let mut out = [b'.'; 40];
    write(&mut out, 4, &answer);
    put_all(rt, &out)
}

fn put_credentials(rt: &HostRuntime, name: &[u8], set: [bool; 64]) -> io::Result<()> {
    rt.write_all(name)?;
    for (i, is_set) in set.iter().enumerate() {
        if *is_set {
            put_number(rt, i as u64)?;
        }
    }
    rt.write_all(b")")
}

fn put_node(rt: &HostRuntime, node: u8, kind: Kind) -> io::Result<()> {
    rt.write_all(b"node")?;
    put_number(rt, node as u64)?;
    match kind {
        Kind::Host => rt.write_all(b" host"),
        Kind::Gateway => rt.write_all(b" gate"),
    }
}

fn put_send(rt: &HostRuntime, session: u8, sender: Sender, tag: u32) -> io::Result<()> {
    rt.write_all(b"send")?;
    put_number(rt, session as u64)?;
    match sender {
        Sender::Client => rt.write_all(b" client")?,
        Sender::Server => rt.write_all(b" server")?,
    }
    put_number(rt, tag as u64)
}

fn put_three(rt: &HostRuntime, word: &[u8], a: u8, b: u8, c: u8) -> io::Result<()> {
    rt.write_all(word)?;
    put_number(rt, a as u64)?;
    put_number(rt, b as u64)?;
    put_number(rt, c as u64)
}

fn put_request(rt: &HostRuntime, request: Request) -> io::Result<()> {
    match request {
        Request::Node { node, kind, .. } => put_node(rt, node, kind),
        Request::Route {
            at,
            destination,
            next,
        } => put_three(rt, b"route", at, destination, next),
        Request::Open {
            session,
            client,
            server,
        } => put_three(rt, b"open", session.0, client, server),
        Request::Step { session, item } => {
            rt.write_all(b"step")?;
            put_number(rt, session.0 as u64)?;
            put_number(rt, item.0 as u64)
        }
        Request::Send {
            session,
            sender,
            tag,
        } => put_send(rt, session.0, sender, tag),
        Request::Close(session) => {
            rt.write_all(b"close")?;
            put_number(rt, session.0 as u64)
        }
        Request::Show => rt.write_all(b"show"),
        Request::Net => rt.write_all(b"net"),
        Request::Drop {
            session,
            establishment,
        } => {
            rt.write_all(b"drop")?;
            put_number(rt, session.0 as u64)?;
            put_number(rt, establishment as u64)
        }
    }
}

// The sets that a request gives; they are empty where it is not a node's.
fn credentials_of(request: Request) -> ([bool; 64], [bool; 64]) {
    match request {
        Request::Node { has, needs, .. } => (has, needs),
        _ => ([false; 64], [false; 64]),
    }
}

// A line, and what it asks.
fn put_line(rt: &HostRuntime, line: &[u8]) -> io::Result<()> {
    rt.write_all(line)?;
    rt.write_all(b" -> ")?;
    match read(line) {
        Ok(request) => {
            put_request(rt, request)?;
            let (has, needs) = credentials_of(request);
            put_credentials(rt, b" (has", has)?;
            put_credentials(rt, b" (needs", needs)?;
        }
        Err(refusal) => {
            rt.write_all(b"refusal")?;
            put_number(rt, u8::from(refusal) as u64)?;
        }
    }
    rt.write_all(b"\n")
}

fn put_refusals(rt: &HostRuntime) -> io::Result<()> {
    let refusals = [
        Refusal::Short,
        Refusal::Unreadable,
        Refusal::Range,
        Refusal::Double,
        Refusal::Unknown,
        Refusal::Late,
        Refusal::Taken,
        Refusal::Idle,
        Refusal::Same,
        Refusal::Gateway,
        Refusal::Spent,
        Refusal::NoItem,
        Refusal::Waiting,
        Refusal::Full,
        Refusal::Clash,
        Refusal::Unsorted,
        Refusal::Busy,
        Refusal::NoSuchTunnel,
    ];
    for refusal in refusals {
        put_answer(rt, Err(refusal))?;
    }
    Ok(())
}

fn put_losses(rt: &HostRuntime) -> io::Result<()> {
    let losses = [
        Loss::Unprotected,
        Loss::HopLimit,
        Loss::NoRoute,
        Loss::NoTunnel,
        Loss::WrongTunnel,
        Loss::Exhausted,
    ];
    for loss in losses {
        put_answer(rt, Ok(Answer::Lost(loss)))?;
    }
    Ok(())
}

fn put_answers(rt: &HostRuntime) -> io::Result<()> {
    let answers = [
        Answer::Ok,
        Answer::Made(ItemNumber(3)),
        Answer::MadeByDefault(ItemNumber(1000000)),
        Answer::MadeTwo(ItemNumber(999999), ItemNumber(1000000)),
        Answer::Denied,
        Answer::Opened,
        Answer::Delivered(4294967295),
        Answer::Closed,
    ];
    for answer in answers {
        put_answer(rt, Ok(answer))?;
    }
    put_losses(rt)?;
    put_refusals(rt)
}

// ---- lines of reports, each put as an answer is

fn association() -> ShownAssociation {
    ShownAssociation {
        node: 1,
        out: false,
        peer: 2,
        spi: Spi::between(1, 2),
        users: 1,
    }
}

// The place behind a line, then the bytes that it stands in.
fn put_written(rt: &HostRuntime, next: usize, out: &[u8]) -> io::Result<()> {
    put_number(rt, next as u64)?;
    rt.write_all(b" ")?;
    rt.write_all(out)?;
    rt.write_all(b"\n")
}

fn route(at: u8, destination: u8, next: u8) -> GivenRoute {
    GivenRoute {
        at,
        destination,
        next,
    }
}

fn put_route(rt: &HostRuntime) -> io::Result<()> {
    let mut out = [b'.'; 40];
    let next = write(&mut out, 4, &route(32, 1, 31));
    put_written(rt, next, &out)
}

// A gateway that has three credentials and needs all.
fn gateway() -> GivenNode {
    let mut has = [false; 64];
    has[0] = true;
    has[9] = true;
    has[63] = true;
    GivenNode {
        number: 32,
        node: Node {
            kind: Kind::Gateway,
            has,
            needs: [true; 64],
        },
    }
}

// Its line at place 4.
fn put_gateway(rt: &HostRuntime, out: &mut [u8]) -> io::Result<()> {
    let next = write(out, 4, &gateway());
    put_written(rt, next, out)
}

// Where one byte too few is left nothing is written, and the place stays.
fn put_nothing(rt: &HostRuntime) -> io::Result<()> {
    let mut out = [b'.'; 35];
    let accepted: Result<Answer, Refusal> = Ok(Answer::Ok);
    put_number(rt, write(&mut out, 4, &accepted) as u64)?;
    put_number(rt, write(&mut out, 4, &association()) as u64)?;
    put_number(rt, write(&mut out, 4, &End) as u64)?;
    let next = write(&mut out, 4, &route(1, 4, 2));
    put_written(rt, next, &out)?;
    put_gateway(rt, &mut [b'.'; 403])
}

// An association's line at place 4 of forty dots, and all forty.
fn put_association(rt: &HostRuntime, x: ShownAssociation) -> io::Result<()> {
    let mut out = [b'.'; 40];
    write(&mut out, 4, &x);
    put_all(rt, &out)
}

fn put_end(rt: &HostRuntime) -> io::Result<()> {
    let mut out = [b'.'; 40];
    write(&mut out, 4, &End);
    put_all(rt, &out)
}

fn put_reports(rt: &HostRuntime) -> io::Result<()> {
    put_association(rt, association())?;
    put_association(
        rt,
        ShownAssociation {
            node: 32,
            out: true,
            peer: 31,
            spi: Spi::between(31, 32),
            users: 65535,
        },
    )?;
    put_end(rt)?;
    put_route(rt)?;
    put_gateway(rt, &mut [b'.'; 404])?;
    put_nothing(rt)
}

fn main(rt: HostRuntime) -> io::Result<()> {
    let mut input = [0u8; 8192];
    let n = read_full(&mut rt.stdin(), &mut input)?;
    let text = &input[..n];
    let mut from = 0;
    while let Some(line) = next_line(text, from) {
        put_line(&rt, &text[from..line.stop])?;
        from = line.next;
    }
    put_answers(&rt)?;
    put_reports(&rt)
}
