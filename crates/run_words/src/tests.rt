use crate::{RunWords, WordsFault, read_run_words};
use std::alloc::Global;
use std::test::*;

fn read(alloc: Global, line: &str) -> Result<Result<RunWords, WordsFault>, Fail> {
    let mut words = Vec::new(alloc);
    for word in line.split(' ') {
        words.push(String::from_str(alloc, word)?)?;
    }
    Ok(read_run_words(words.as_slice()))
}

#[test]
fn right_words(rt: HostRuntime) -> Result<(), Fail> {
    let alloc = rt.alloc();
    let asked = RunWords {
        every: 10,
        turns: 100,
        drain: true,
    };
    assert_eq!(rt;
        read(
            alloc,
            "run m f --partitions 1 --every 10 --turns 100 --drain"
        )?,
        Ok(asked)
    );
    assert_eq!(rt;
        read(
            alloc,
            "run m f --drain --turns=100 --every=10 --partitions=1"
        )?,
        Ok(asked)
    );
    Ok(())
}

#[test]
fn wrong_words(rt: HostRuntime) -> Result<(), Fail> {
    let alloc = rt.alloc();
    assert_eq!(rt;
        read(alloc, "run m f --partitions 17 --every 1 --turns 1")?,
        Err(WordsFault { word: 4 })
    );
    assert_eq!(rt;
        read(alloc, "run m f --partitions 2 --every 1 --turns 1")?,
        Err(WordsFault { word: 4 })
    );
    assert_eq!(rt;
        read(alloc, "run m f --partitions 1 --every 1")?,
        Err(WordsFault { word: 7 })
    );
    Ok(())
}
