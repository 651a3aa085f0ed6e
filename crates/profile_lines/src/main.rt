#![tactic(auto)]
// Answers the lines of the standard input on the standard output.
use lines::transcript;
use std::io::{Read, Write};

// One byte more than is run, so that a longer input is seen to be longer.
const KEPT: u64 = 32_769;

fn main(rt: HostRuntime) -> anyhow::Result<()> {
    let heap = rt.alloc();
    let mut input = Vec::new(heap);
    rt.stdin().take(KEPT).read_to_end(&mut input)?;
    let text = transcript(heap, &input)?;
    rt.stdout().write_all(text.as_bytes())?;
    Ok(())
}

#[cfg(test)]
mod tests {
    use lines::transcript;
    use std::alloc::Global;
    use std::process::Abort;
    use std::test::Fail;

    fn answers(rt: &impl Abort, heap: Global, input: &[u8], output: &str) -> Result<(), Fail> {
        let text = transcript(heap, input)?;
        assert_eq!(rt; text.as_str(), output);
        Ok(())
    }

    #[test]
    fn no_input(rt: HostRuntime) -> Result<(), Fail> {
        answers(&rt, rt.alloc(), b"", "")
    }

    #[test]
    fn one_end(rt: HostRuntime) -> Result<(), Fail> {
        answers(&rt, rt.alloc(), b"\n", "! 1 51\n")
    }

    #[test]
    fn ended_or_not(rt: HostRuntime) -> Result<(), Fail> {
        answers(&rt, rt.alloc(), b"n 33 2\nn 5 1", "n 1\nn 2\n")?;
        answers(&rt, rt.alloc(), b"n 33 2\nn 5 1\n", "n 1\nn 2\n")
    }

    // 64 notes fill a profile, long before their counts do
    #[test]
    fn most_records(rt: HostRuntime) -> Result<(), Fail> {
        let mut input = Vec::new(rt.alloc());
        for _ in 0..65 {
            input.extend_from_slice(b"n 1 1\n")?;
        }
        let text = transcript(rt.alloc(), &input)?;
        assert!(rt; text.as_str().ends_with("\nn 63\nn 64\n! 65 32\n"));
        Ok(())
    }

    // 32,768 bytes are run, as one line here, and one byte more is not
    #[test]
    fn most_input(rt: HostRuntime) -> Result<(), Fail> {
        let mut input = vec![in rt.alloc(); b'x'; 32_768]?;
        answers(&rt, rt.alloc(), &input, "! 1 51\n")?;
        input.push(b'x')?;
        answers(&rt, rt.alloc(), &input, "! 0 52\n")
    }
}
