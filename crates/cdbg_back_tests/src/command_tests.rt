//! Command lines, worked by hand.

use command_line::{Job, job_of};
use debug_records::Mode;
use std::alloc::Global;
use std::test::Fail;

/// The words of a text.
fn words(alloc: Global, text: &str) -> Result<Vec<String>, Fail> {
    let mut words = Vec::new(alloc);
    for word in text.split(' ') {
        words.push(String::from_str(alloc, word)?)?;
    }
    Ok(words)
}

/// Whether the words of a text are a job.
fn is_job(alloc: Global, text: &str) -> Result<bool, Fail> {
    let words = words(alloc, text)?;
    Ok(job_of(alloc, words.as_slice())?.is_some())
}

/// Texts, and whether their words are a job.
static LINES: [(&str, bool); 16] = [
    ("cdbg debug s c i m", true),
    ("cdbg debug --limit=0007 s c i m", true),
    ("cdbg debug s c i m --passes none", true),
    ("cdbg debug s c i", false),
    ("cdbg debug s c i m more", false),
    ("cdbg debug -- s c i m", false),
    ("cdbg debug - c i m", false),
    ("cdbg debug s c i m --limit", false),
    ("cdbg debug s c i m --limit=1 --limit 1", false),
    ("cdbg debug s c i m --limit +1", false),
    ("cdbg debug s c i m --limit 1000000001", false),
    ("cdbg debug s c i m --lim 1", false),
    ("cdbg debug s c i m --help", false),
    ("cdbg help debug", false),
    ("cdbg debug s c i m --passes copy,", false),
    ("cdbg debug s c i -m", false),
];

fn lines() -> &'static [(&'static str, bool)] {
    &LINES
}

#[test]
fn words_are_a_job_or_none(rt: HostRuntime) -> Result<(), Fail> {
    for (text, wanted) in lines() {
        assert!(rt; is_job(rt.alloc(), *text)? == *wanted, "{text}");
    }
    let text = "cdbg debug s --limit 7 c --homes=slots i --passes copy,dead m";
    let words = words(rt.alloc(), text)?;
    let Some(Job::Debug(job)) = job_of(rt.alloc(), words.as_slice())? else {
        return Err(Fail::from("a job"));
    };
    assert!(rt; job.limit == 7 && job.mode == Mode::Slots && job.passes.len() == 2);
    assert!(rt; job.source.as_str() == "s" && job.image.as_str() == "m");
    Ok(())
}
