//! Many clients at once: their bytes come and leave in pieces and orders that a seed determines, and what they are
//! told is what one replica answers to one sequence of requests.
use super::host_calls::{admit_all, feed, round, take};
use super::random_frames::{Random, below};
use super::replica_calls::{
    Bytes, CLASH, GET, PUT, WIDE, end, new_replica, push, replies, root_of,
};
use mvd_dots::Refusal;
use mvd_host::Host;
use mvd_replica::Replica;
use sqlite::Alter;
use std::alloc::Global;
use std::test::Fail;

const CLIENTS: u64 = 8;

const REQUESTS: usize = 6;

/// The most steps in which all bytes come and all replies leave.
const STEPS: u32 = 5_000;

/// What clients ask: puts, deletes and pushes at two keys, and questions for one of them and for the site.
const ASKED: [&str; 10] = [
    PUT,
    GET,
    "0000001222016100000000000000077b2261223a317d",
    "00000003210161",
    "0000002222016b0000000100000001000000000000000200000000000000077b2261223a337d",
    "0000001723016b0000000100000001000000000000000100000000",
    "0000003029016100000001000000090000000000000001000000000001000000090000000000000001000000077b2261223a327d",
    CLASH,
    "000000022700",
    WIDE,
];

/// A client: what it asks, how much of that came, how many requests were taken, and where the last of them ends;
/// whether a round began with its questions, and ended its turn; what it was told, and what it should be.
#[derive(Drop)]
struct Client {
    asked: [&'static str; REQUESTS],
    input: Bytes,
    came: usize,
    taken: usize,
    end: usize,
    led: bool,
    is_over: bool,
    told: Vec<u8>,
    wanted: Vec<u8>,
}

/// A client with random requests.
fn new_client(alloc: Global, random: &mut Random) -> Client {
    let mut asked = [GET; REQUESTS];
    for at in 0..REQUESTS {
        asked[at] = ASKED[below(random, 10) as usize % 10];
    }
    Client {
        asked,
        input: Bytes::of(&asked),
        came: 0,
        taken: 0,
        end: 0,
        led: false,
        is_over: false,
        told: Vec::new(alloc),
        wanted: Vec::new(alloc),
    }
}

/// What is answered next of a client in a round.
#[derive(Clone, Copy)]
enum Part {
    Questions,
    Changes,
    Rest,
}

fn is_of(part: Part, request: &str) -> bool {
    let changes = matches!(
        request.as_bytes().get(8..10),
        Some([b'2', b'2' | b'3' | b'9'])
    );
    match part {
        Part::Questions => !changes,
        Part::Changes => changes && request != WIDE,
        Part::Rest => true,
    }
}

/// Whether a round takes nothing behind a request: it is none, or a get with no change in front.
fn is_last(part: Part, request: &str) -> bool {
    let is_get = matches!(request.as_bytes().get(8..10), Some([b'2', b'1']));
    request == WIDE || (is_get && matches!(part, Part::Questions))
}

/// One replica is asked what a round answers of a client next: the requests of a part that are whole, up to one that is
/// the last. Whether there was one.
fn ask<S: Alter + Drop>(
    alloc: Global,
    single: &mut Replica<S>,
    client: &mut Client,
    part: Part,
) -> bool {
    let mut any = false;
    for at in client.taken..REQUESTS {
        let request = client.asked[at];
        let end = client.end.saturating_add(request.len() / 2);
        if end > client.came || !is_of(part, request) {
            return any;
        }
        let (reply, _) = replies(alloc, single, Bytes::of(&[request]).bytes());
        push(&mut client.wanted, reply.as_slice());
        client.taken = at + 1;
        client.end = end;
        any = true;
        if is_last(part, request) {
            client.is_over = true;
            return any;
        }
    }
    any
}

/// At most so many bytes of a client come, or as many of those that wait leave to it.
fn move_bytes(host: &mut Host, number: u64, clients: &mut [Client], most: usize, leave: bool) {
    if let Some(client) = clients.get_mut(number as usize) {
        if leave {
            push(&mut client.told, take(host, number, most).bytes());
        } else {
            let rest = client.input.bytes().get(client.came..).unwrap_or(&[]);
            let count = feed(host, number, rest.get(..most).unwrap_or(rest));
            client.came = client.came.saturating_add(count);
        }
    }
}

/// A round of two clients, for which the one replica is asked too: first questions, then changes, and then what stands
/// behind them.
fn round_of<S: Alter + Drop, T: Alter + Drop>(
    alloc: Global,
    host: &mut Host,
    replica: &mut Replica<S>,
    single: &mut Replica<T>,
    clients: &mut [Client],
    ready: [u64; 2],
) {
    round(alloc, host, replica, &ready);
    for client in clients.iter_mut() {
        client.is_over = false;
    }
    for part in [Part::Questions, Part::Changes, Part::Rest] {
        for number in ready {
            if let Some(client) = clients.get_mut(number as usize) {
                ask_part(alloc, single, client, part);
            }
        }
    }
}

/// The changes of a client are answered with those of others where it does not begin with questions.
fn ask_part<S: Alter + Drop>(
    alloc: Global,
    single: &mut Replica<S>,
    client: &mut Client,
    part: Part,
) {
    if client.is_over || (client.led && matches!(part, Part::Changes)) {
        return;
    }
    let any = ask(alloc, single, client, part);
    client.led = any && matches!(part, Part::Questions);
}

/// One step: bytes of a client come, or bytes leave to it, or there is a round of two.
fn step<S: Alter + Drop, T: Alter + Drop>(
    alloc: Global,
    random: &mut Random,
    host: &mut Host,
    replica: &mut Replica<S>,
    single: &mut Replica<T>,
    clients: &mut [Client],
) {
    let number = below(random, CLIENTS);
    let behind = below(random, CLIENTS - 1).wrapping_add(1);
    let other = number.wrapping_add(behind) % CLIENTS;
    let most = below(random, 80) as usize;
    let kind = below(random, 5);
    if kind == 0 {
        round_of(alloc, host, replica, single, clients, [number, other]);
    } else {
        move_bytes(host, number, clients, most, kind == 1);
    }
}

/// How many bytes clients are told together; `None` where one has not all that it should have been told, or not all
/// was asked.
fn told_to(clients: &[Client]) -> Option<usize> {
    let mut bytes = 0usize;
    if clients.len() != CLIENTS as usize {
        return None;
    }
    for client in clients {
        if client.taken != REQUESTS || client.told.as_slice() != client.wanted.as_slice() {
            return None;
        }
        bytes = bytes.saturating_add(client.told.len());
    }
    Some(bytes)
}

/// How many bytes clients are told in the order of a seed.
fn told_by<S: Alter + Drop, T: Alter + Drop>(
    alloc: Global,
    seed: u64,
    replica: &mut Replica<S>,
    single: &mut Replica<T>,
) -> Option<usize> {
    let mut random = seed.wrapping_mul(0x9E37_79B9_7F4A_7C15);
    let mut host = Host::new(alloc);
    let mut clients = Vec::new(alloc);
    admit_all(&mut host, CLIENTS as usize);
    for _ in 0..CLIENTS {
        let _ = clients.push(new_client(alloc, &mut random));
    }
    for _ in 0..STEPS {
        step(
            alloc,
            &mut random,
            &mut host,
            replica,
            single,
            clients.as_mut_slice(),
        );
    }
    let told = told_to(clients.as_slice());
    drop(clients);
    drop(host);
    told
}

/// The same beside a replica that was made; `None` where they are others than one sequence gives, or the two have not
/// one root.
fn told_beside<S: Alter + Drop>(
    alloc: Global,
    seed: u64,
    replica: &mut Replica<S>,
) -> Result<Option<usize>, Refusal> {
    let mut single = new_replica(alloc, 1, &[])?;
    let told = told_by(alloc, seed, replica, &mut single);
    let are_equal = root_of(replica) == root_of(&single);
    end(single);
    Ok(if are_equal { told } else { None })
}

fn told_in_order(alloc: Global, seed: u64) -> Result<Option<usize>, Refusal> {
    let mut replica = new_replica(alloc, 1, &[])?;
    let told = told_beside(alloc, seed, &mut replica);
    end(replica);
    told
}

#[test]
fn each_order_is_one_sequence(rt: HostRuntime) -> Result<(), Fail> {
    for seed in 1..=20u64 {
        match told_in_order(rt.alloc(), seed)? {
            Some(bytes) => println!(rt; "seed {seed}: {bytes} bytes")?,
            None => return Err(Fail::new(format_args!("seed {seed}"))),
        }
    }
    Ok(())
}
