//! The texts of `--help` and `--version`.

/// How to use the program: its commands, what each reads and writes, its exit statuses, and the documents.
pub const HELP: &str = "\
arterial: a simulator and test bench for traffic-signal controllers. It is
proved that its trace is exactly the one that the definition prescribes.

  arterial run [--workers N] < SCENARIO > TRACE
      Reads a scenario (JSON, at most 16,777,216 bytes) from standard input and
      writes its trace to standard output: every change of indication of every
      phase of every cabinet, with its tick (a tenth of a second), each reply of
      a cabinet to a message, and what the master records. An invalid scenario
      is refused before anything is written; one line on standard error names
      the first fault.
      With N from 1 to 8, N workers process the items of a round, each in its own
      thread, in an order that they settle among themselves; the trace shows it.
      Workers give other orders, not more speed. With 0 (the default) the order
      is always the same: inputs from the street, messages, ticks.
  arterial check < TRACE
      Reads a text (at most 67,108,864 bytes) from standard input and checks
      whether it is a trace: that of some scenario, in any order in which the
      items of a round can be processed. Nothing is written; if the text is not
      a trace, one line on standard error names the first line that cannot
      follow the lines before it, and the rule that it breaks.
  arterial overlaps --cabinet C --parents HEX --trail N --yellow N --red N < TRACE
      Reads a trace as check does, and writes when an overlap changes: an arrow
      that is green with any of its parents, 1 to 16 phases of cabinet C (1 to
      64), two hexadecimal digits each. The times are in ticks (0 to 255): how
      long green trails, yellow change, red clearance. An overlap that could
      still be clearing when all its parents are red is refused.
  arterial live < SESSION
      Reads a scenario in the first line of standard input, and a request in each
      following line: ticks, a detector, a push button, a preempt, a message.
      Each is answered, before more is read, by the lines of the trace that it
      causes and a line with a dot. An invalid request is answered by one line
      that names the wrong part, and changes nothing. docs/LIVE.md has details.
  arterial judge [--joined] [--tolerance N] < LOG
      Judges the log of any controllers: the first line of standard input has the
      scenario of a street, as in a trace; the lines after it are lines of a
      trace. Writes a line for each breach that a line shows, before more is
      read; then the intervals that stand longer than their time, and the totals.
      With --tolerance, lengths may differ by N ticks (0 to 20). With --joined,
      the log begins in the middle of what is shown. docs/JUDGE.md has details.
  arterial band < STREET
      Reads a JSON object (at most 16,777,216 bytes) from standard input: a
      scenario, one of its sections, a pattern, and the travel time in ticks
      from each cabinet of the section to the next. Writes two lines, outbound
      and inbound: when the widest progression band of the plan begins at the
      cabinet that is passed first, its width, both in ticks, and the two
      cabinets that limit it; or none. An invalid file is refused as by run.
  arterial respond < FIELD > SCENARIO
      Reads a field file (a JSON object of at most 16,777,216 bytes) from
      standard input: a scenario, the vehicle detectors of its cabinets, when
      each turns on or off, and the traffic at which a section changes its
      pattern. Writes the resulting scenario, in one line, for run: its inputs,
      then the calls of the detectors, by delay, extension and diagnostics, and
      the patterns as the master's schedule. An invalid file is refused as by
      run.
  arterial generate --seed N --cabinets K --rounds M > SCENARIO
      Writes a random scenario of K cabinets (1 to 64) and M rounds of 10 seconds
      (1 to 86,400; K times M at most 100,000): traffic, polls, lost messages and
      a download to each cabinet. The same seed N (0 to 4,294,967,295) gives the
      same scenario on every machine. Nothing is read.
  arterial survey --seed N --cabinets K --rounds M
      Runs that scenario, and writes its totals: cabinets, rounds, ticks of all
      cabinets, F lines, replies, accepted and refused downloads. These are
      numbers of lines of its trace. Nothing is read.
  arterial --help
      Writes this text. Nothing is read.
  arterial --version
      Writes the version. Nothing is read.

Exit status: 0 done, 1 unknown command or wrong arguments, 2 the scenario is
refused, 3 standard input could not be read, 4 standard output could not be
written, 5 the text is not a trace or not a log, 6 out of memory, 7 the overlap
breaks a rule, 8 the log shows breaches. After 4, after 6 of a run, and after 3
and 6 of a session or a log, the output is an incomplete prefix.

docs/SCENARIO.md explains scenarios, the rules of tables, and refusals;
docs/FIELD-FILE.md field files, docs/BANDS.md bands, docs/TRACE.md traces;
scenarios/ has examples to run; README.md says what is proved.
";

/// The name and the version of the program.
pub const VERSION: &str = "arterial 0.8\n";
