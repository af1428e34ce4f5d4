// Net files, their cores and statuses.
use super::rows::{NEVER, Row, run_calls, run_row};
use std::alloc::Global;
use std::test::Fail;
use test_notation::{field, repeated};

// The sources of cores. P sends 0 to 999 by link 0 and Q adds up what comes by it; S sends 64 cells, T 65; A waits for link 1 and B
// for link 0; H prints A, K takes an input byte, and Z halts with 5.
const SOURCES: &str =
    "P = :_MAIN_1000_0_DO_I_16416_!_LOOP_; & Q = :_MAIN_0_1000_0_DO_16416_@_+_LOOP_U._; \
& S = :_MAIN_64_0_DO_I_16416_!_LOOP_; & T = :_MAIN_65_0_DO_I_16416_!_LOOP_; & A = :_MAIN_16418_@_DROP_; \
& B = :_MAIN_16416_@_DROP_; & H = :_MAIN_65_EMIT_; & K = :_MAIN_KEY_DROP_; & Z = :_MAIN_5_16388_!_; & X = :_MAIN_X_; & D = :_MAIN_DROP_;";

// A net file, what is written to out, and the answer.
const NETS: &str = r#"
NET_1~core_P~core_Q~link_0_1~turns_10000_100           | core_0:_~core_1:_40748_~ |
NET_1~core_P~core_Q~link_0_1~turns_1_1                 | core_0:_~core_1:_~       | 6 steps used
NET_1~core_P~core_Q~link_0_0~turns_1_1                 |                          | 17 net line 4
NET_1~core_A~core_B~link_0_1~link_1_0~turns_100_100    | core_0:_~core_1:_~       | 6 steps used
NET_1~core_B~core_H~link_1_0~turns_100_100             | core_0:_~core_1:_A~      | 6 steps used
NET_1~core_P~core_H~link_0_1~turns_100_100             | core_0:_~core_1:_A~      | 6 steps used
NET_1~core_S~core_H~link_0_1~turns_1000_10             | core_0:_~core_1:_A~      |
NET_1~core_T~core_H~link_0_1~turns_1000_10             | core_0:_~core_1:_A~      | 6 steps used
NET_1~core_P~core_H~turns_1000_10                      | core_0:_~core_1:_A~      | 8 outside 16416
NET_1~core_H~core_P~link_0_1~turns_1000_10             | core_0:_A~core_1:_~      | 8 outside 16416
NET_1~core_H~core_K~turns_1000_10                      | core_0:_A~core_1:_~      | 7 input ended
NET_1~core_Z~core_K~turns_1000_10                      | core_0:_~core_1:_~       | 9 halted 5
NET_1~core_H~core_NONE~turns_1_1                       |                          | 2 NONE: missing
NET_1~core_X~core_NONE~turns_1_1                       |                          | 3 source token 3: UnknownWord
NET_1~core_H~core_D~turns_1_1                          |                          | 4 MAIN: not certified: Data
~\_a~_NET^091_\_b~core_H^0D~~core_H~turns_0000000100_9 | core_0:_A~core_1:_A~     |
"#;

// Texts that are no net files.
const BAD: &str = r#"
                                                       |                          | 17 net line 1
NET_2~core_H~core_H~turns_1_1                          |                          | 17 net line 1
NET_1                                                  |                          | 17 net line 2
NET_1~core_H~core_H                                    |                          | 17 net line 4
NET_1~core_H~turns_1_1                                 |                          | 17 net line 3
NET_1~core_-H~core_H~turns_1_1                         |                          | 17 net line 2
NET_1~core_H~link_0_1~core_H                           |                          | 17 net line 3
NET_1~core_H~core_H~link_0_2~turns_1_1                 |                          | 17 net line 4
NET_1~core_H~core_H~link_0_1~core_H~turns_1_1          |                          | 17 net line 5
NET_1~core_H~core_H~turns_1_1~core_H                   |                          | 17 net line 5
NET_1~core_H~core_H~turns_1_1_1                        |                          | 17 net line 4
NET_1~\_^80~core_H~core_H~turns_1_1                    |                          | 17 net line 2
NET_1~core_H~core_H~turns_0_1                          |                          | 17 net line 4
NET_1~core_H~core_H~turns_1_0                          |                          | 17 net line 4
NET_1~core_H~core_H~turns_1000001_1                    |                          | 17 net line 4
NET_1~core_H~core_H~turns_1_1001                       |                          | 17 net line 4
NET_1~core_H~core_H~turns_1000000_3                    |                          | 17 net line 4
NET_1~core_H~core_H~turns_00000000001_9                |                          | 17 net line 4
"#;

// Runs the cores of a net file.
fn run_net_file(alloc: Global, net: &str, out: &str, answer: &str) -> Result<(), Fail> {
    let files = format!(in alloc; "n = {net} & {SOURCES}")?;
    let row = Row {
        words: "net n",
        source: "",
        console: "",
        out,
        answer,
        files: files.as_str(),
        after: "",
    };
    run_row(alloc, &row, NEVER)
}

fn run_net_files(alloc: Global, table: &str) -> Result<(), Fail> {
    for line in table.trim_matches('\n').lines() {
        let mut rest = line;
        let net = field(&mut rest);
        let out = field(&mut rest);
        run_net_file(alloc, net, out, field(&mut rest))?;
    }
    Ok(())
}

#[test]
fn runs_nets(rt: HostRuntime) -> Result<(), Fail> {
    run_net_files(rt.alloc(), NETS)
}

#[test]
fn refuses_bad_lines(rt: HostRuntime) -> Result<(), Fail> {
    run_net_files(rt.alloc(), BAD)
}

// The most entries: 4,000,000.
#[test]
fn runs_most_turns(rt: HostRuntime) -> Result<(), Fail> {
    let net = "NET_1~core_H~core_H~turns_1000000_2";
    run_net_file(rt.alloc(), net, "core_0:_A~core_1:_A~", "")
}

// Pieces of a net file, each with how often it stands, what is written to out, and the answer. 16 cores and 16 links are run, and one more of
// either is a bad line.
const MOST: &str = r#"
NET_1~ 1, core_H~ 16, link_0_15~ 16, turns_100_10 1 | core_0:_A~core_1:_A~core_2:_A~core_3:_A~core_4:_A~core_5:_A~core_6:_A~core_7:_A~core_8:_A~core_9:_A~core_10:_A~core_11:_A~core_12:_A~core_13:_A~core_14:_A~core_15:_A~ |
NET_1~ 1, core_H~ 16, link_0_15~ 16, link_0_1~turns_1_1 1 |  | 17 net line 34
NET_1~ 1, core_H~ 16, core_H~turns_1_1 1 |  | 17 net line 18
"#;

fn run_most(alloc: Global, line: &str) -> Result<(), Fail> {
    let mut rest = line;
    let net = repeated(alloc, field(&mut rest))?;
    let out = field(&mut rest);
    run_net_file(alloc, net.as_str(), out, field(&mut rest))
}

#[test]
fn runs_most_cores(rt: HostRuntime) -> Result<(), Fail> {
    for line in MOST.trim_matches('\n').lines() {
        run_most(rt.alloc(), line)?;
    }
    Ok(())
}

const WORDS: &str = r#"
net NONE  | |  |  | 2 NONE: missing
net       | |  |  | 1 bad words
net a b   | |  |  | 1 bad words
run P     | |  |  | 8 outside 16416 | P = :_MAIN_1000_0_DO_I_16416_!_LOOP_;
"#;

#[test]
fn answers_net_words(rt: HostRuntime) -> Result<(), Fail> {
    run_calls(rt.alloc(), WORDS)
}
