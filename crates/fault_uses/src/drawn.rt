//! Drawn scripts over disks that fail at drawn calls.

use crate::faults::assert_shows;
use crate::histories::faults_in;
use crate::runs::{Start, disk_at, run_script};
use std::alloc::Global;
use std::process::Abort;
use std::sync::Wait;
use std::test::Fail;
use std::thread::Threads;
use voice_main::Status;
use voice_model::{Call, Entry};

// How many seeds there are, how many lines are drawn from each, and up to which number calls fail.
const SEEDS: u64 = 200;

const LINES: u32 = 40;

const CALLS: u64 = 300;

/// What is drawn from: a number that looks like a random one, and the latest moment.
#[derive(Drop)]
struct Draws {
    number: u64,
    moment: u64,
}

impl Draws {
    // A number below a count, and 0 below 0.
    fn below(&mut self, count: u64) -> u64 {
        self.number = self
            .number
            .wrapping_mul(6_364_136_223_846_793_005)
            .wrapping_add(1_442_695_040_888_963_407);
        if count == 0 {
            return 0;
        }
        (self.number >> 33) % count
    }

    // One of these words.
    fn word(&mut self, words: &[&'static str]) -> &'static str {
        let place = self.below(words.len() as u64);
        match words.get(place as usize) {
            Some(word) => word,
            None => "",
        }
    }

    // A variable of a recording.
    fn recorded(&mut self) -> &'static str {
        self.word(&["a", "b"])
    }

    // A variable of a rope that was made of others.
    fn made(&mut self) -> &'static str {
        self.word(&["v", "w"])
    }

    fn key(&mut self) -> &'static str {
        self.word(&["k", "m"])
    }

    // A line that makes a rope. Each is longer than another one by a recording at most.
    fn edit(&mut self, alloc: Global) -> Result<String, Fail> {
        let (to, from, with) = (self.made(), self.made(), self.recorded());
        let (start, len) = (self.below(12), self.below(12));
        match self.below(4) {
            0 => Ok(format!(in alloc; "1 {to} = concat {from} {with}\n")?),
            1 => Ok(format!(in alloc; "1 {to} = sub {from} {start} {len}\n")?),
            2 => Ok(format!(in alloc; "1 {to} = replace {from} {start} {len} {with}\n")?),
            _ => {
                let file = self.word(&["z0", "z8", "f20", "g20"]);
                Ok(format!(in alloc; "1 {with} = record {file}\n")?)
            }
        }
    }

    // A line on an interest.
    fn row(&mut self, alloc: Global) -> Result<String, Fail> {
        let rope = self.word(&["a", "b", "v", "w"]);
        let class = self.word(&["held", "until", "listed"]);
        let key = self.key();
        let later = self.moment.saturating_add(self.below(40));
        match self.below(6) {
            0 => Ok(format!(in alloc; "1 forget {class} {key}\n")?),
            1 => Ok(format!(in alloc; "1 census {key}\n")?),
            2 => Ok(format!(in alloc; "1 lookup {class} {key}\n")?),
            _ => Ok(format!(in alloc; "1 retain {class} {key} {rope} {later:016x}\n")?),
        }
    }

    // A line on the moment, or a sweep, or a look at a rope.
    fn tidying(&mut self, alloc: Global) -> Result<String, Fail> {
        let rope = self.word(&["a", "v"]);
        let verb = self.word(&["length", "describe", "levels"]);
        match self.below(3) {
            0 => Ok(format!(in alloc; "1 {verb} {rope}\n")?),
            1 => {
                let limit = self.below(4);
                Ok(format!(in alloc; "1 sweep {limit}\n")?)
            }
            _ => {
                self.moment = self.moment.saturating_add(self.below(60));
                let moment = self.moment;
                Ok(format!(in alloc; "1 advance {moment}\n")?)
            }
        }
    }

    // A line on the jobs of a lane.
    fn job(&mut self, alloc: Global) -> Result<String, Fail> {
        let rope = self.word(&["a", "b", "v", "w"]);
        let (lane, start, len) = (self.below(3), self.below(8), self.below(24));
        match self.below(4) {
            0 => Ok(format!(in alloc; "1 queue {lane} {rope} {start} {len}\n")?),
            1 => Ok(format!(in alloc; "1 play {lane} {rope} {start} {len} out\n")?),
            2 => Ok(format!(in alloc; "1 serve {lane} out\n")?),
            _ => Ok(format!(in alloc; "1 stop {lane}\n")?),
        }
    }

    // A line on the recording of a lane.
    fn part(&mut self, alloc: Global) -> Result<String, Fail> {
        let to = self.recorded();
        let file = self.word(&["z0", "z8", "f20", "g20"]);
        let lane = self.below(3);
        match self.below(5) {
            0 | 1 => Ok(format!(in alloc; "1 begin {lane}\n")?),
            2 => Ok(format!(in alloc; "1 {to} = end {lane}\n")?),
            _ => Ok(format!(in alloc; "1 add {lane} {file}\n")?),
        }
    }

    // The next line.
    fn line(&mut self, alloc: Global) -> Result<String, Fail> {
        match self.below(10) {
            0 | 1 => self.row(alloc),
            2 | 3 => self.tidying(alloc),
            4 => self.job(alloc),
            5 | 6 => self.part(alloc),
            _ => self.edit(alloc),
        }
    }

    // A script.
    fn script(&mut self, alloc: Global) -> Result<String, Fail> {
        let first =
            "1 a = record f20\n1 b = record z8\n1 w = record g20\n1 record z0\n1 v = concat a b\n";
        let mut script = String::from_str(alloc, first)?;
        for _ in 0..LINES {
            script.push_str(&self.line(alloc)?)?;
        }
        Ok(script)
    }

    // The numbers of the calls that fail, from the first one behind opening on: one in so many, and mostly some side by side.
    fn fails(&mut self, alloc: Global) -> Result<Vec<u64>, Fail> {
        let seldom = self.below(30).saturating_add(5);
        let mut fails = Vec::new(alloc);
        let mut left = 0u64;
        for call in 9..CALLS {
            if self.below(seldom) == 0 {
                left = self.below(4).saturating_add(1);
            }
            if left > 0 {
                fails.push(call)?;
                left -= 1;
            }
        }
        Ok(fails)
    }
}

// How many changes that were in doubt have landed.
fn landings_in(history: &[Entry]) -> usize {
    history
        .iter()
        .filter(|entry| matches!(&entry.call, Call::Landed))
        .count()
}

// Asserts that what a seed's script is answered, and what its disk shows then, is what the evaluator says; and gives how many faults were told, and how many landings.
fn assert_seed<R: Threads + Wait + Sync + Abort>(
    rt: &R,
    alloc: Global,
    seed: u64,
) -> Result<(usize, usize), Fail> {
    let place = format!(in alloc; "seed {seed}")?;
    let mut draws = Draws {
        number: seed,
        moment: 0,
    };
    let script = draws.script(alloc)?;
    let disk = disk_at(alloc, Start::Drawn, &draws.fails(alloc)?)?;
    let ran = run_script(rt, alloc, &script, disk)?;
    assert_eq!(rt; ran.ended.status, Status::Done, "{place}");
    assert_shows(rt, alloc, Start::Drawn, &ran.ended, &place)?;
    let history = &ran.ended.history;
    Ok((faults_in(history), landings_in(history)))
}

#[test]
fn drawn_faults_leave_what_was_acknowledged(rt: HostRuntime) -> Result<(), Fail> {
    let (mut faults, mut landings) = (0usize, 0usize);
    for seed in 0..SEEDS {
        let (told, landed) = assert_seed(&rt, rt.alloc(), seed)?;
        faults = faults.saturating_add(told);
        landings = landings.saturating_add(landed);
    }
    // There are enough of either, so that the draws are worth their time.
    assert!(rt;
        faults > 1000 && landings > 200,
        "{faults} faults, {landings} landings"
    );
    Ok(())
}
