// Prints the report of the flow on standard input, with 4,096 cells lent (document 01, "The report"): the row of `render::report_of`.
// A fault is said on standard error, and the status stays 0.
#![tactic(auto)]

fn main(rt: HostRuntime) {
    let _ = program::answer(&rt, &mut rt.stdin(), "report", |text| {
        let mut lines = [0u8; render::REPORT_BYTES];
        let size = render::report_of(text, &mut lines);
        rt.write_all(&lines[..size])
    });
}
