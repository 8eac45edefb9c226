//! Checks the files of a flight and prints one line on them.
#![tactic(auto)]

use report::check;
use std::fs::File;
use std::io;
use std::io::{ErrorKind, Read};

/// The longest problem file has 8,752 bytes: what is longer is refused by its first bytes alone.
const MOST: u64 = 16_384;

/// The first bytes of a file, and none of a file that is absent.
fn first_bytes(rt: &HostRuntime, path: &str) -> io::Result<Vec<u8>> {
    let mut bytes = Vec::new(rt.alloc());
    match File::open(rt, path) {
        Ok(file) => {
            file.take(MOST).read_to_end(&mut bytes)?;
        }
        Err(error) if error.kind() == ErrorKind::NotFound => {}
        Err(error) => return Err(error),
    }
    Ok(bytes)
}

fn run(rt: &HostRuntime) -> anyhow::Result<()> {
    let problem = first_bytes(rt, "problem.bin")?;
    rt.println(check::line(rt.alloc(), &problem)?)?;
    Ok(())
}

fn main(rt: HostRuntime) -> anyhow::Result<()> {
    run(&rt)
}

#[cfg(test)]
mod tests {
    use super::*;
    use std::fs;
    use std::test::Fail;

    #[test]
    fn an_absent_file_has_no_bytes(rt: HostRuntime) -> Result<(), Fail> {
        assert_eq!(rt; first_bytes(&rt, "absent.bin")?.len(), 0);
        Ok(())
    }

    #[test]
    fn a_long_file_is_cut(rt: HostRuntime) -> Result<(), Fail> {
        let bytes = vec![in rt.alloc(); 7u8; 16_385]?;
        fs::write(&rt, "long.bin", bytes.as_slice())?;
        let first = first_bytes(&rt, "long.bin")?;
        fs::remove_file(&rt, "long.bin")?;
        assert_eq!(rt; first.len(), 16_384);
        Ok(())
    }
}
