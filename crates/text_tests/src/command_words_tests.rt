use command_words::{Job, explain_words, read_words};
use std::alloc::{AllocError, Global};
use std::fmt::Write;
use std::test::Fail;

// Command words, and the job they ask for: store, action, batch, cache, policy, seed, count, and the property in brackets.
static LINES: &str = "\
- run > - run 1000 1024 Quadratic 0 1000
town.store load > town.store load 1000 1024 Quadratic 0 1000
- load --batch 1 --cache 0 --text name > - load 1 0 Quadratic 0 1000 [name]
- load --batch=10000 --cache=65536 --text=name > - load 10000 65536 Quadratic 0 1000 [name]
--cache 7 - run > - run 1000 7 Quadratic 0 1000
- --text= load > - load 1000 1024 Quadratic 0 1000 []
- load --text=--batch > - load 1000 1024 Quadratic 0 1000 [--batch]
- load --batch +5 --cache 007 > - load 5 7 Quadratic 0 1000
--cache=3 -- -x run > -x run 1000 3 Quadratic 0 1000
- run --policy quadratic > - run 1000 1024 Quadratic 0 1000
- run --policy=halving > - run 1000 1024 Halving 0 1000
- run --policy=words > - run 1000 1024 Words 0 1000
--policy halving - load --text name > - load 1000 1024 Halving 0 1000 [name]
- make > - make 1000 1024 Quadratic 0 1000
- make --from 7 --count 5000 > - make 1000 1024 Quadratic 7 5000
- make --from=0 --count=1 --batch 10 --cache 0 --policy halving > - make 10 0 Halving 0 1
--policy words - load --batch 5 > - load 5 1024 Words 0 1000
- make --policy words > - make 1000 1024 Words 0 1000
--count 100000 - --from 18446744073709551615 make > - make 1000 1024 Quadratic 18446744073709551615 100000
- verify > - verify 1000 1024 Quadratic 0 1000
some.store verify --cache 0 > some.store verify 1000 0 Quadratic 0 1000
- upgrade > - upgrade 1000 1024 Quadratic 0 1000
old.store upgrade --cache 0 > old.store upgrade 1000 0 Quadratic 0 1000
> Line
- > Line
- dance > Line
- Run > Line
- run - > Line
-x run > Line
- run -h > Line
--help > Line
- load --batch > Line
- load --batch 0 > Line
- load --batch=10001 > Line
- load --batch=-1 > Line
- load --batch= > Line
- load --batch 1.5 > Line
- load --cache 65537 > Line
- load --cache 18446744073709551616 > Line
- load --batch 1 --batch 1 > Line
- load --text a --text=b > Line
- load --bat 5 > Line
- make --count 0 > Line
- make --count 100001 > Line
- make --count > Line
- make --from 18446744073709551616 > Line
- make --from=-1 > Line
- make --from= > Line
- make --from 1 --from 1 > Line
- make --count 5 --count=5 > Line
- run --batch 1 --text > Line
- run --policy > Line
- run --policy= > Line
- run --policy Halving > Line
- run --policy word > Line
- run --policy Words > Line
- load --policy linear > Line
- run --policy halving --policy halving > Line
- run --batch 1 --policy linear > Line
- run --batch 1 > Unused
--text=name - run > Unused
- run --cache 1 --text name > Unused
--policy halving --batch 1 - run > Unused
- run --count 5 > Unused
- run --from=0 > Unused
- load --count 5 > Unused
--from 0 - load > Unused
- make --text name > Unused
- verify --policy halving > Unused
- verify --batch 5 > Unused
- upgrade --policy halving > Unused
- upgrade --batch 5 > Unused
--text name - upgrade > Unused
- upgrade --from 1 --count 5 > Unused
";

// The words of a line, which spaces separate.
fn words_of(alloc: Global, line: &str) -> Result<Vec<String>, AllocError> {
    let mut words = Vec::new(alloc);
    for word in line.split(' ') {
        if !word.is_empty() {
            words.push(word.to_string(alloc)?)?;
        }
    }
    Ok(words)
}

// Appends a job.
fn tell(out: &mut String, job: &Job) -> Result<(), AllocError> {
    let store = job.store.as_str();
    write!(out, "{store} {} {} {}", job.action, job.batch, job.cache)?;
    write!(out, " {:?} {} {}", job.policy, job.from, job.count)?;
    match &job.text {
        Some(property) => write!(out, " [{}]", property.as_str()),
        None => Ok(()),
    }
}

// The job that command words ask for, or the fault.
fn told(alloc: Global, words: &[String]) -> Result<String, AllocError> {
    let mut out = String::new(alloc);
    match read_words(alloc, words) {
        Ok(job) => tell(&mut out, &job)?,
        Err(fault) => write!(out, "{fault:?}")?,
    }
    Ok(out)
}

// Whether the words of a line ask for this job.
fn asks_for(alloc: Global, line: &str, wanted: &str) -> Result<bool, AllocError> {
    let words = words_of(alloc, line)?;
    Ok(told(alloc, &words)?.as_str() == wanted)
}

#[test]
fn words_ask_for_their_job(rt: HostRuntime) -> Result<(), Fail> {
    for line in LINES.lines() {
        let (given, wanted) = line.split_once("> ").ok_or("a line without its job")?;
        assert!(rt; asks_for(rt.alloc(), given, wanted)?, "{given}");
    }
    Ok(())
}

// Command words that are refused, and the text for a person.
static REFUSALS: &str = "\
- dance > unknown action 'dance', expected run, load, verify, make or upgrade
- run --batch 1 > the action run doesn't use '--batch'
- load --from 1 > the action load doesn't use '--from'
- verify --count 5 > the action verify doesn't use '--count'
- upgrade --policy words > the action upgrade doesn't use '--policy'
- load --policy linear > unknown policy 'linear', expected quadratic, halving or words
- run --policy > a value is required for '--policy <POLICY>' but none was supplied
- load --batch 0 > invalid value '0' for '--batch <PLACES>': 0 is not in 1..=10000
- make --count 0 > invalid value '0' for '--count <NUMBER>': 0 is not in 1..=100000
- load --cach 5 > unexpected argument '--cach' found
- load --text > a value is required for '--text <PROPERTY>' but none was supplied
- > the following required arguments were not provided: <ACTION>
";

// Whether the words of a line are refused with this text, or accepted if it is empty.
fn is_explained(alloc: Global, line: &str, wanted: &str) -> Result<bool, AllocError> {
    let words = words_of(alloc, line)?;
    match explain_words(alloc, &words)? {
        Some(text) => Ok(text.as_str() == wanted),
        None => Ok(wanted.is_empty()),
    }
}

#[test]
fn a_refusal_names_the_word(rt: HostRuntime) -> Result<(), Fail> {
    for line in REFUSALS.lines() {
        let (given, wanted) = line.split_once("> ").ok_or("a line without its text")?;
        assert!(rt; is_explained(rt.alloc(), given, wanted)?, "{given}");
    }
    assert!(rt; is_explained(rt.alloc(), "- run", "")?);
    Ok(())
}
