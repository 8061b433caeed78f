//! A script of one object from sources and to sinks of several kinds.
use crate::tests::outside::{Outside, answer_of, sure};
use gc_play::OpenGate;
use play_report::{CountSink, SureSource};
use play_words::play_words;
use std::test::Fail;

const SCRIPT: &str = "gcscript 1\nwarehouse\nnew x 5\nsay a x\n";

const TEXT: &str = "warehouse 1\na 5\ndropped 0\nsurvivors 1\n1 0 5\n";

#[test]
fn plays_from_a_sure_source_to_a_counting_sink(rt: HostRuntime) -> Result<(), Fail> {
    let words = ["run".to_string(rt.alloc())?];
    let mut source = SureSource::make(rt.alloc(), SCRIPT.as_bytes())
        .ok()
        .ok_or("memory")?;
    let mut sink = CountSink::make();
    let status = play_words(&rt, rt.alloc(), &words, &mut source, &mut sink, &OpenGate);
    assert!(rt; status == 0 && sink.count() == 44);
    Ok(())
}

/// The script has 37 bytes: five reads, four with bytes and one that finds none.
#[test]
fn reads_ten_bytes_at_a_time(rt: HostRuntime) -> Result<(), Fail> {
    for read in 1..=6u32 {
        let outside = Outside {
            per_read: 10,
            reads: &[read],
            ..sure(SCRIPT.as_bytes())
        };
        let (status, text) = answer_of(&rt, "run", &outside).ok_or("memory")?;
        if read == 6 {
            assert!(rt; status == 0 && text.as_slice() == TEXT.as_bytes());
        } else {
            assert!(rt; status == 4 && text.is_empty(), "read {read}");
        }
    }
    Ok(())
}
