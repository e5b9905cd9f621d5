//! Durations as texts. Cases are one after the other, with a bar between two.
use am_alerts::duration::DurationFault::{self, BadDuration, TooLong};
use am_alerts::duration::read_duration;
use std::process::Abort;

/// Each duration with its milliseconds.
const DURATIONS: &str =
    "1h30m=5400000|1w2d=777600000|0=0|0s=0|00s=0|01h=3600000|31y=977616000000|31y37w=999993600000|\
     1y=31536000000|1w=604800000|1d=86400000|1h=3600000|1m=60000|1s=1000|1ms=1|1m1ms=60001|1m1s1ms=61001|\
     1y1w1d1h1m1s1ms=32230861001|0y0w0d0h0m0s7ms=7|90m=5400000|1000000000s=1000000000000|\
     999999999s1000ms=1000000000000|000000000000000000000000000000000000000000000000000001s=1000";

const LONGER_DURATIONS: &str =
    "32y|31y38w|1000000000001ms|1000000000s1ms|18446744073709551616ms|18446744073709551s616ms|584942418y|\
     18446744073709551616y0ms|100000000000000000000000000000y|100000000000000000000000000000ms|\
     1h999999999999999999999999999999s";

const NO_DURATIONS: &str =
    "|5|00| 0|0 | 1s|1s |1 s|1.5h|1,5h|-1s|+1s|s|ms|h1|1h5|1x|1mm|1sm|1mss|1S|1ns|1us|1µs|１s|1ſ|été|\
     \u{0}1s|1h\n|1y1y|1m1m|1ms1ms|18446744073709551615ms1ms|1w1y|1d1w|1h1d|1m1h|1s1m|1ms1m|1ms1s|1s1y|\
     100000000000000000000000000000y1|32y5";

#[test]
fn reads_durations(rt: HostRuntime) {
    for case in DURATIONS.split('|') {
        let (text, millis) = case.split_once('=').unwrap_or((case, ""));
        match (read_duration(text), millis.parse::<u64>()) {
            (Ok(read), Ok(wanted)) => assert_eq!(rt; read, wanted, "{text}"),
            _ => panic!(rt; "{case}"),
        }
    }
}

#[test]
fn refuses_longer_durations(rt: HostRuntime) {
    are_refused(&rt, LONGER_DURATIONS, TooLong);
}

#[test]
fn refuses_other_texts(rt: HostRuntime) {
    are_refused(&rt, NO_DURATIONS, BadDuration);
}

fn are_refused(rt: &impl Abort, texts: &str, fault: DurationFault) {
    for text in texts.split('|') {
        assert_eq!(rt; read_duration(text), Err(fault), "{text}");
    }
}
