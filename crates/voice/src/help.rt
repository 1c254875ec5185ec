//! What the program says of itself.

/// Its version. The README names the toolchain that it is proved with.
pub const VERSION: &str = "voice 0.1.0\n";

/// What it does, its forms with an example each, and its exit statuses.
pub const HELP: &str = "\
voice: a voice manager. It runs a script of calls, and prints one line for each.

Its forms, each with an example:
  voice run NAME               runs a script of this folder         voice run mail.vs
  voice run NAME --threads     each caller on a thread of its own   voice run two.vs --threads
  voice format [--OPTION N ..] formats the disk, and forgets all    voice format --blocks 1000
      --block 4096, --blocks 15000, --area 1048576, --grace 86400, --lanes 8: the defaults;
      --held, --until, --listed: the grace of that class
  voice notes INDEX            a census of keys that notes name     voice notes minutes.idx
  voice audit                  what stands on the disk              voice audit
  voice make SEED LINES        runs a generated script, and counts  voice make 7 2000
  voice packets NAME FILE N    runs, and writes changes to FILE     voice packets mail.vs mail.pk 1
  voice mirror FILE            the disk takes packets of FILE       voice mirror mail.pk
  voice promote                a mirror's disk becomes a voice disk voice promote
  voice import AU FILE         samples out of an AU file            voice import memo.au memo.ul
  voice export FILE AU         an AU file of samples                voice export memo.ul memo.au
  voice --help, --version      this, and the version

The lines of a script, each with an example; a comment begins with #:
  CALLER [VARIABLE =] record FILE                     1 a = record hello.ul
  CALLER [VARIABLE =] concat ROPE ..                  1 b = concat a a
  CALLER [VARIABLE =] sub ROPE START LEN              1 c = sub b 5 20
  CALLER [VARIABLE =] replace ROPE START LEN OTHER    1 d = replace b 0 10 c
  CALLER length ROPE (so describe, levels)            1 describe d
  CALLER queue LANE ROPE START LEN                    1 queue 0 d 0 20
  CALLER play LANE ROPE START LEN FILE                1 play 1 d 0 20 heard.ul
  CALLER serve LANE FILE                              1 serve 0 first.ul
  CALLER stop LANE                                    1 stop 0
  CALLER begin LANE (then add LANE FILE)              1 begin 2
  CALLER [VARIABLE =] end LANE                        1 e = end 2
  CALLER retain CLASS KEY ROPE NOTE                   1 retain held mail.1 d 6869
  CALLER [VARIABLE =] lookup CLASS KEY                2 m = lookup held mail.1
  CALLER forget CLASS KEY                             2 forget held mail.1
  CALLER census KEY ..                                1 census monday tuesday
  CALLER advance MOMENT                               1 advance 86400
  CALLER sweep LIMIT                                  1 sweep 100
CALLER is 1 to 16, FILE a file of the folder (8,000 one-byte mu-law samples a second),
ROPE a variable or a number, CLASS held, until or listed, NOTE hexadecimal digits or -.
The disk is voice.disk of the folder, made and formatted where absent. docs/SCRIPT.md has more.
Exit status: 0 done, 2 bad words or shape, 3 a bad line of the script, 4 no such file, 5 the
folder failed, 6 the output, 7 a damaged disk, 8 the disk failed, 9 no memory, 10 no AU file
of mu-law at 8,000, 11 a bad index, 12 a bad note, 13 too many keys, 14 bad packets; and of
promote 15 a full journal, 16 in doubt, 17 no further epoch; standard error tells.
";
