//! The scripts of the tables, what they print, and what is heard of them.

/// The samples of the files `f20`, `g20`, `z8` and `z32`.
pub const F20: &[u8] = b"ABCDEFGHIJKLMNOPQRST";

pub const G20: &[u8] = b"abcdefghijklmnopqrst";

pub const Z8: &[u8] = &[0x80; 8];

pub const Z32: &[u8] = &[0x80; 32];

/// A job that a script serves, the only one of its lane: the lane, the file that is written, and the samples of the passage.
#[derive(Clone, Copy)]
pub struct Serving {
    pub lane: u16,
    pub file: &'static [u8],
    pub passage: &'static [u8],
}

/// A script by caller 1, and what a run without faults comes to: how many sample files are read, how many entries the history has, what is printed, the jobs in the order in which they are over, and how often areas are switched over a new disk, and over one whose journal is full.
#[derive(Clone, Copy)]
pub struct Script {
    pub name: &'static str,
    pub lines: &'static str,
    pub samples: u64,
    pub entries: usize,
    pub text: &'static str,
    pub servings: &'static [Serving],
    pub switches: [u64; 2],
}

/// A recording, a rope of it in itself, which is heard in two windows, two recordings in parts beside each other, behind one of which its lane begins another, an interest that goes, and a sweep, behind which another recording takes the same blocks.
pub const REPLACED: Script = Script {
    name: "replaced",
    lines: "1 a = record f20\n1 retain held k a 00\n1 begin 1\n1 add 1 f20\n1 b = replace a 5 10 a\n1 play 0 b 0 30 out\n1 begin 2\n1 add 2 g20\n1 end 2\n1 add 1 g20\n1 forget held k\n1 advance 100\n1 end 1\n1 begin 1\n1 sweep 9\n1 record g20\n",
    samples: 2,
    entries: 19,
    text: "1 1 record: rope 1 length 20\n2 1 retain: done\n3 1 begin: done\n4 1 add: number 20\n5 1 replace: rope 2 length 30\n6 1 play: job 1\n7 1 feed: window 0 25\n8 1 feed: window 25 5\n9 1 feed: ended 1 30\n10 1 begin: done\n11 1 add: number 20\n12 1 end: rope 3 length 20\n13 1 add: number 40\n14 1 forget: done\n15 1 advance: done\n16 1 end: rope 4 length 40\n17 1 begin: done\n18 1 sweep: swept 0 rows 3 ropes 1 2 3\n19 1 record: rope 5 length 20\n",
    servings: &[Serving {
        lane: 0,
        file: b"out",
        passage: b"ABCDEABCDEFGHIJKLMNOPQRSTPQRST",
    }],
    switches: [0, 1],
};

/// Three listed interests, of which a census drops two; a recording in parts, and a rope with it at its end, whose record switches; a job of this rope that waits, and another one that is heard in two windows, each of which reads blocks; a sweep, of whose ropes the job that waits keeps the blocks, so that a recording has no room until a stop; and the end of a second recording in parts, which switches again.
pub const SWITCHED: Script = Script {
    name: "switched",
    lines: "1 a = record f20\n1 retain listed k a 00070e151c232a31383f464d545b626970777e858c939aa1a8afb6bdc4cbd2d9e0e7eef5fc030a11181f262d343b424950575e656c737a81888f969da4abb2b9c0c7ced5dce3eaf1f8ff060d141b222930373e454c535a61686f767d848b9299a0a7aeb5bcc3cad1d8dfe6edf4fb020910171e252c333a41484f565d646b7279\n1 retain listed m a 00070e151c232a31383f464d545b626970777e858c939aa1a8afb6bdc4cbd2d9e0e7eef5fc030a11181f262d343b424950575e656c737a81888f969da4abb2b9c0c7ced5dce3eaf1f8ff060d141b222930373e454c535a61686f767d848b9299a0a7aeb5bcc3cad1d8dfe6edf4fb020910171e252c333a41484f565d646b7279\n1 begin 1\n1 add 1 f20\n1 retain listed l a fffefdfcfbfaf9f8f7f6f5f4f3f2f1f0efeeedecebeae9e8e7e6e5e4e3e2e1e0dfdedddcdbdad9d8d7d6d5d4d3d2d1d0cfcecdcccbcac9c8c7c6c5c4c3c2c1c0\n1 census m\n1 add 1 g20\n1 c = end 1\n1 d = concat a c\n1 queue 0 d 0 60\n1 play 1 d 0 60 out\n1 begin 2\n1 add 2 g20\n1 forget listed m\n1 advance 100\n1 sweep 9\n1 add 2 f20\n1 record z32\n1 stop 0\n1 end 2\n1 record z32\n1 serve 0 cut\n",
    samples: 3,
    entries: 26,
    text: "1 1 record: rope 1 length 20\n2 1 retain: done\n3 1 retain: done\n4 1 begin: done\n5 1 add: number 20\n6 1 retain: done\n7 1 census: number 2\n8 1 add: number 40\n9 1 end: rope 2 length 40\n10 1 concat: rope 3 length 60\n11 1 play: job 1\n12 1 play: job 2\n13 1 feed: window 0 28\n14 1 feed: window 28 32\n15 1 feed: ended 2 60\n16 1 begin: done\n17 1 add: number 20\n18 1 forget: done\n19 1 advance: done\n20 1 sweep: swept 0 rows 3 ropes 1 2 3\n21 1 add: number 40\n22 1 record: no no-room 4 3\n23 1 stop: number 1\n24 1 end: rope 4 length 40\n25 1 record: rope 5 length 32\n26 1 feed: stopped 1 0\n",
    servings: &[
        Serving {
            lane: 1,
            file: b"out",
            passage: b"ABCDEFGHIJKLMNOPQRSTABCDEFGHIJKLMNOPQRSTabcdefghijklmnopqrst",
        },
        Serving {
            lane: 0,
            file: b"cut",
            passage: b"ABCDEFGHIJKLMNOPQRSTABCDEFGHIJKLMNOPQRSTabcdefghijklmnopqrst",
        },
    ],
    switches: [2, 3],
};

/// All of them.
pub const SCRIPTS: [&Script; 2] = [&REPLACED, &SWITCHED];
