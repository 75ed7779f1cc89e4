//! Inputs of commands, as this machine's shell runs them.
use cs_device::{Outcome, Runner};
use cs_machine::{Remarks, ShellRunner};

/// An input that is longer than a pipe holds; commands read all of it, some or none.
#[test]
fn long_inputs(rt: HostRuntime) {
    let input = vec![in rt.alloc(); b'x'; 1_000_000].expect(&rt, "memory");
    let input = Some(input.as_slice());
    let remarks = Remarks::new(rt.alloc());
    let (out, err) = (rt.stdout(), rt.stderr());
    let mut runner = ShellRunner::new(&rt, rt.alloc(), out, err, &remarks, None, false, None, None);
    for (command, status) in [
        (b"[ $(wc -c) -eq 1000000 ]".as_slice(), 0),
        (b"[ \"$(head -c 3)\" = xxx ]", 0),
        (b"exit 4", 4),
        (b"exec < /dev/null; exit 5", 5),
    ] {
        let name = b"line 1 due 2024-09-13 23:30";
        let got = runner.run(name, None, command, input, &[], None);
        assert!(rt; got == Outcome::Exited(status), "{command:?}");
    }
}
