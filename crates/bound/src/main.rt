// Prints how many cells the flow on standard input takes at most (document 02, T-01): the row of `render::bound_of`.
// A fault is said on standard error, and the status stays 0.
#![tactic(auto)]

fn main(rt: HostRuntime) {
    let _ = program::answer(&rt, &mut rt.stdin(), "bound", |text| {
        let mut line = [0u8; render::LINE_BYTES];
        let size = render::bound_of(text, &mut line);
        rt.write_all(&line[..size])
    });
}
