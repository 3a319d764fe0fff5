//! What is counted, and how it is told (Prometheus' text form).
use crate::census::Census;
use crate::peer_counts::{PeerCounts, print_peers};
use crate::talks::Kind;
use crate::timing::Timing;
use mvd_dots::Refusal;
use mvd_hint::Lengths;
use mvd_host::{KINDS, Tally};
use mvd_input::RELEASE;
use std::alloc::Global;
use std::collections::BTreeMap;
use std::fmt::Write as Print;
use std::time::{Clock, Instant};

/// The kinds of requests, as they are told, in the order of a tally.
const NAMES: [&str; KINDS] = [
    "get",
    "put",
    "delete",
    "find",
    "row",
    "rows",
    "node",
    "bucket",
    "push",
    "range",
    "keys",
    "conflicts",
    "hello",
    "bye",
];

/// What a server has done since it started.
#[derive(Drop)]
pub(crate) struct Counts {
    /// Connections that came: of frames, and over HTTP.
    pub frames: u64,
    pub https: u64,
    /// Rounds in which something was answered, each with one commit at the most for each group of its requests.
    pub rounds: u64,
    /// The requests that the site answered, of frames and over HTTP.
    pub tally: Tally,
    pub timing: Timing,
    /// The keys that have a sibling, and those that are deleted.
    pub census: Census,
    /// The bytes of the file and of its log.
    pub lengths: Lengths,
    /// The responses over HTTP, by their status.
    statuses: BTreeMap<u16, u64>,
    /// The sessions with each peer.
    pub peers: Vec<PeerCounts>,
    /// The connections that are open, and the time in milliseconds.
    pub open: usize,
    pub now: u64,
}

/// What there is now.
#[derive(Clone, Copy)]
pub(crate) struct Now {
    pub site: u32,
    pub max_keys: u32,
    pub keys: u32,
    pub conflicts: u32,
    pub commits: u64,
}

impl Counts {
    pub fn new(alloc: Global, peers: Vec<PeerCounts>, start: Instant) -> Counts {
        Counts {
            frames: 0,
            https: 0,
            rounds: 0,
            tally: Tally::new(),
            timing: Timing::new(start),
            census: Census::new(),
            lengths: Lengths {
                file: None,
                log: None,
            },
            statuses: BTreeMap::new(alloc),
            peers,
            open: 0,
            now: 0,
        }
    }

    /// Notes a connection that came.
    pub fn note_client(&mut self, kind: Kind) {
        match kind {
            Kind::Frames => self.frames = self.frames.saturating_add(1),
            Kind::Http => self.https = self.https.saturating_add(1),
        }
    }

    /// A round begins at this time, in milliseconds, before which there were so many commits.
    pub fn begin_round<N: Clock>(&mut self, rt: &N, now: u64, commits: u64) {
        self.now = now;
        self.timing.begin(rt, self.rounds, commits);
    }

    /// A round ended, after which there are so many commits.
    pub fn end_round<N: Clock>(&mut self, rt: &N, commits: u64) {
        self.timing.end(rt, &self.tally, self.rounds, commits);
    }

    /// Notes a response over HTTP. Where memory is refused, it is not counted.
    pub fn note(&mut self, status: u16) {
        match self.statuses.get_mut(&status) {
            Some(count) => *count = count.saturating_add(1),
            None => {
                let _ = self.statuses.insert(status, 1);
            }
        }
    }

    /// Prints all of it, each with what it is.
    pub fn print(&self, now: Now, out: &mut String) -> Result<(), Refusal> {
        self.print_site(now, out)?;
        self.print_connections(out)?;
        self.print_rounds(now, out)?;
        self.print_requests(out)?;
        self.print_seconds(out)?;
        self.print_responses(out)?;
        print_peers(&self.peers, self.now, out)
    }

    /// Prints what the site is, and what it holds.
    fn print_site(&self, now: Now, out: &mut String) -> Result<(), Refusal> {
        let info = "The version, and the number of the site.";
        print_head("mvd_info", "gauge", info, out)?;
        let (version, site) = (RELEASE, now.site);
        writeln!(out, "mvd_info{{version=\"{version}\",site=\"{site}\"}} 1")?;
        let keys = "Keys that are held, those that are deleted too.";
        print_one(out, "mvd_keys", "gauge", keys, u64::from(now.keys))?;
        let most = "The most keys that may be held.";
        print_one(out, "mvd_max_keys", "gauge", most, u64::from(now.max_keys))?;
        if let Some(found) = self.census.whole {
            let live = "Keys with a sibling, when all were counted last.";
            print_one(out, "mvd_keys_live", "gauge", live, found.live)?;
            let deleted = "Keys without a sibling, when all were counted last.";
            print_one(out, "mvd_keys_deleted", "gauge", deleted, found.deleted)?;
        }
        let (help, count) = ("Keys with two siblings or more.", u64::from(now.conflicts));
        print_one(out, "mvd_conflicts", "gauge", help, count)?;
        self.print_lengths(out)
    }

    /// Prints how long the file and its log were when they were looked at last.
    fn print_lengths(&self, out: &mut String) -> Result<(), Refusal> {
        if let Some(length) = self.lengths.file {
            let help = "Bytes of the file, a second after a commit.";
            print_one(out, "mvd_file_bytes", "gauge", help, length)?;
        }
        if let Some(length) = self.lengths.log {
            let help = "Bytes of the file's log, a second after a commit.";
            print_one(out, "mvd_log_bytes", "gauge", help, length)?;
        }
        Ok(())
    }

    fn print_connections(&self, out: &mut String) -> Result<(), Refusal> {
        let open = "Connections that are open.";
        print_one(out, "mvd_connections", "gauge", open, self.open as u64)?;
        let came = "Connections that came.";
        print_head("mvd_connections_total", "counter", came, out)?;
        print_came(out, "frames", self.frames)?;
        print_came(out, "http", self.https)
    }

    fn print_rounds(&self, now: Now, out: &mut String) -> Result<(), Refusal> {
        let rounds = "Rounds in which something was answered.";
        print_one(out, "mvd_rounds_total", "counter", rounds, self.rounds)?;
        let commits = "Commits of changes.";
        print_one(out, "mvd_commits_total", "counter", commits, now.commits)?;
        let seconds = "Seconds of a commit, with what its round did beside it.";
        print_head("mvd_commit_seconds", "histogram", seconds, out)?;
        self.timing.commits.print("mvd_commit_seconds", None, out)
    }

    fn print_requests(&self, out: &mut String) -> Result<(), Refusal> {
        let help = "Requests that were answered, by kind and outcome.";
        print_head("mvd_requests_total", "counter", help, out)?;
        for place in 0..KINDS {
            let kind = NAMES[place];
            print_ended(out, kind, "done", self.tally.done[place])?;
            print_ended(out, kind, "refused", self.tally.refused[place])?;
        }
        Ok(())
    }

    fn print_seconds(&self, out: &mut String) -> Result<(), Refusal> {
        let help = "Seconds from when the server woke up to a request until its reply was queued.";
        print_head("mvd_request_seconds", "histogram", help, out)?;
        for place in 0..KINDS {
            let kind = Some(NAMES[place]);
            self.timing.requests[place].print("mvd_request_seconds", kind, out)?;
        }
        Ok(())
    }

    fn print_responses(&self, out: &mut String) -> Result<(), Refusal> {
        let help = "Responses over HTTP, by their status.";
        print_head("mvd_http_responses_total", "counter", help, out)?;
        for (status, count) in &self.statuses {
            writeln!(
                out,
                "mvd_http_responses_total{{status=\"{status}\"}} {count}"
            )?;
        }
        Ok(())
    }
}

/// Prints what a metric is, and of which kind.
pub(crate) fn print_head(
    name: &str,
    kind: &str,
    help: &str,
    out: &mut String,
) -> Result<(), Refusal> {
    writeln!(out, "# HELP {name} {help}\n# TYPE {name} {kind}")?;
    Ok(())
}

/// Prints what a count is, and then the count.
fn print_one(
    out: &mut String,
    name: &str,
    kind: &str,
    help: &str,
    count: u64,
) -> Result<(), Refusal> {
    print_head(name, kind, help, out)?;
    writeln!(out, "{name} {count}")?;
    Ok(())
}

/// Prints a count of connections.
fn print_came(out: &mut String, kind: &str, count: u64) -> Result<(), Refusal> {
    writeln!(out, "mvd_connections_total{{kind=\"{kind}\"}} {count}")?;
    Ok(())
}

/// Prints how many requests of a kind ended so.
fn print_ended(out: &mut String, kind: &str, outcome: &str, count: u64) -> Result<(), Refusal> {
    writeln!(
        out,
        "mvd_requests_total{{kind=\"{kind}\",outcome=\"{outcome}\"}} {count}"
    )?;
    Ok(())
}
