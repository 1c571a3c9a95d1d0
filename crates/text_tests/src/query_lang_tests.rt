//! Lines of scripts: what each one means, by the replies of a map that answers by a scan.
ghost use Rattle.std.specs.Prelude.{IfOk};
ghost use Rattle.place_values.specs.Update.{NamesText};
ghost use Rattle.query_replies.specs.Reply.{HasReason};

use place_map::State;
use place_values::{Applied, Update};
use query_lang::{Line, LineFault, Reply, UpdateDone, read_line, reply_text};
use std::alloc::Global;
use std::test::Fail;

// Lines that are read, each after `> `, and the lines of their replies. After `new` the map is empty.
static SCALED: &str = r#"new
> add e 179.9 0
ok
> add f -179.8 0
ok
> nearest -179.9 0 2
= 2
1 "f" 0.1000000
2 "e" 0.2000000
> range 180 0 0.15
= 1
1 "e" 0.1000000
new
> add savusavu 179.3350 -16.7783 town
ok
> add labasa 179.3667 -16.4333 town
ok
> add matei -179.8769 -16.6906 village
ok
> add lomaloma -178.9760 -17.2689 village
ok
> nearest 180 -16.8 3
= 3
1 "matei" 0.1646874
2 "savusavu" 0.6653539
3 "labasa" 0.7318044
> nearest 180 -16.8 3 scale 957
= 3
1 "matei" 0.1607693
2 "savusavu" 0.6367748
3 "labasa" 0.7083695
> range -180 -16.8 0.7 scale 957 where town
= 1
1 "savusavu" 0.6367748
new
> add east 1 60
ok
> add north 0 60.8
ok
> nearest 0 60 1
= 1
1 "north" 0.8000000
> nearest 0 60 1 scale 500
= 1
1 "east" 0.5000000
new
> add w 180 0
ok
> nearest 0 0 1
= 1
1 "w" 180.0000000
> nearest -180 0 1
= 1
1 "w" 0.0000000
new
> add g 3 4 x
ok
> nearest 0 0 1 scale 500
= 1
1 "g" 4.2720018
> nearest 0 0 1 scale 0
= 1
1 "g" 4.0000000
> nearest 0 0 1 scale 1000
= 1
1 "g" 5.0000000
> nearest 0 0 1 scale 00000000000000000500 where x
= 1
1 "g" 4.2720018
> range 0 0 4.3 scale 500
= 1
1 "g" 4.2720018
> range 0 0 4.3
= 0
> top 0 0 1 500 1 scale 500 words x
= 1
1 "g" 5446802295000
> group 0 0 scale 500 words x
= 1 4.2720018
1 "x" "g" 4.2720018
> explain nearest 0 0 1 scale 500
= 1
1 "g" 4.2720018 at 3.0000000 4.0000000
> explain range 0 0 9 scale 0
= 1
1 "g" 4.0000000 at 3.0000000 4.0000000
> explain top 0 0 1 500 1 scale 500 words x
= 1
1 "g" 5446802295000 at 3.0000000 4.0000000 dist 4.2720018 text 255 of 255
> explain group 0 0 scale 0 words x
= 1 4.0000000
1 "x" "g" 4.0000000 at 3.0000000 4.0000000
> add h -3 4 y
ok
> group 0 0 scale 500 words x y
= 2 7.2720018
1 "x" "g" 4.2720018
2 "y" "h" 4.2720018
"#;

// The same for lines that are refused, and for words that only look like a scale.
static REFUSED: &str = r#"new
> add g 3 4 scale
ok
> nearest 0 0 1 scale 1001
bad range
> nearest 0 0 1 scale 99999999999999999999
bad range
> nearest 0 0 1 scale 000000000000000000500
bad number
> nearest 0 0 1 scale 500.0
bad number
> nearest 0 0 1 scale -1
bad number
> nearest 0 0 1 scale "500"
bad number
> nearest 0 0 1 scale where scale
bad number
> nearest 0 0 1 scale
bad missing
> nearest 0 0 1 "scale" 500
bad extra
> nearest 0 0 1 Scale 500
bad extra
> nearest 0 0 1 scale 500 scale 500
bad extra
> nearest 0 0 scale 500 1
bad number
> nearest 0 0 1 where scale
= 1
1 "g" 5.0000000
> nearest 0 0 1 where scale 500
bad extra
> nearest 0 0 1 where scale scale 500
bad extra
> range 0 0 scale 500 9
bad number
> range 0 0 9 scale 1001
bad range
> box 0 0 5 5 scale 500
bad extra
> box 170 -20 -170 -10
bad range
> top 0 0 1 500 scale 500 1 words scale
bad number
> top 0 0 1 500 1 scale 500
bad missing
> top 0 0 1 500 1 scale 500 scale words
bad extra
> top 0 0 1 500 1 words scale
= 1
1 "g" 6375000000000
> group 0 0 scale words scale
bad number
> group 0 0 scale 1001 words scale
bad range
> group 0 0 words scale
= 1 5.0000000
1 "scale" "g" 5.0000000
"#;

// Choices of least sum.
static GATHERED: &str = r#"new
> add m 0 2 a b c
ok
> add a1 1 0 a
ok
> add b1 0 1 b
ok
> add c1 -1 0 c
ok
> gather 0 0 words a b c
= 3 2.0000000
1 "a" "m" 2.0000000
2 "b" "m" 2.0000000
3 "c" "m" 2.0000000
> gather 0 0 words a b
= 2 2.0000000
1 "a" "a1" 1.0000000
2 "b" "b1" 1.0000000
> gather 0 0 words b
= 1 1.0000000
1 "b" "b1" 1.0000000
> gather 0 0 words a z
none
> gather 0 0 words "c"
= 1 1.0000000
1 "c" "c1" 1.0000000
> gather 0 0 scale 500 words c a
= 2 1.0000000
1 "c" "c1" 0.5000000
2 "a" "a1" 0.5000000
> explain gather 0 0 scale 0 words a c
= 2 0.0000000
1 "a" "a1" 0.0000000 at 1.0000000 0.0000000
2 "c" "c1" 0.0000000 at -1.0000000 0.0000000
new
> add market 0 2.5 flour eggs milk
ok
> add mill 1 0 flour
ok
> add farm 0 1 eggs
ok
> add dairy -1 0 milk
ok
> gather 0 0 words flour eggs milk
= 3 2.5000000
1 "flour" "market" 2.5000000
2 "eggs" "market" 2.5000000
3 "milk" "market" 2.5000000
> gather 0 0 words flour milk
= 2 2.0000000
1 "flour" "mill" 1.0000000
2 "milk" "dairy" 1.0000000
> group 0 0 words flour milk
= 2 2.5000000
1 "flour" "market" 2.5000000
2 "milk" "market" 2.5000000
> gather 0 0 words gather
none
> gather 0 0
bad missing
> gather 0 0 words
bad missing
> gather 0 0 a
bad extra
> gather 0 0 2 words a
bad extra
> gather 0 0 idf words a
bad extra
> gather 0 0 words a*2
bad word
> gather 0 0 words a a
bad word
> gather 0 0 words a b c d e f g h i
bad extra
> gather 0 0 scale 1001 words a
bad range
> gather 0 words a
bad number
> explain gather 0 0 words a*2
bad word
> "gather" 0 0 words a
bad command
> Gather 0 0 words a
bad command
"#;

// Top queries by rarity. Three of the four places have `cafe`, which weighs 1, and one has `bar`, which weighs 3.
static RARE: &str = r#"new
> add a 0 0 cafe
ok
> add b 0 0 cafe
ok
> add c 0 0 cafe
ok
> add d 0 0 bar
ok
> top 0 0 2 500 1 words cafe bar
= 2
1 "a" 1275000000000
2 "b" 1275000000000
> top 0 0 2 500 1 idf words cafe bar
= 2
1 "d" 1275000000000
2 "a" 3825000000000
> top 0 0 2 500 1 words cafe bar*3
= 2
1 "d" 1275000000000
2 "a" 3825000000000
> top 0 0 1 500 1 scale 500 idf words "bar"
= 1
1 "d" 0
> top 0 0 1 500 1 idf words tea bar
= 1
1 "d" 1275000000000
> top 0 0 1 500 1 idf words tea
= 0
> top 0 0 1 500 1 words idf
= 0
> add e 0 0 idf
ok
> top 0 0 1 500 1 words idf
= 1
1 "e" 0
> top 0 0 1 500 1 idf words idf
= 1
1 "e" 0
> explain top 0 0 1 500 1 words idf
= 1
1 "e" 0 at 0.0000000 0.0000000 dist 0.0000000 text 255 of 255
> explain top 0 0 1 500 1 idf words cafe
bad extra
> top 0 0 1 500 1 idf words cafe*2
bad word
> top 0 0 1 500 1 idf words cafe cafe
bad word
> top 0 0 1 500 1 idf cafe
bad extra
> top 0 0 1 500 1 idf
bad missing
> top 0 0 1 500 1 idf words
bad missing
> top 0 0 1 500 1 idf idf words cafe
bad extra
> top 0 0 1 500 1 idf scale 500 words cafe
bad extra
> top 0 0 1 500 1 "idf" words cafe
bad extra
> top 0 0 1 500 1 IDF words cafe
bad extra
> top 0 0 1 500 idf 1 words cafe
bad number
> nearest 0 0 1 idf
bad extra
> group 0 0 idf words cafe
bad extra
"#;

// The reply to an update.
fn applied(state: &mut State, update: Update) -> Result<Reply, Fail>
    requires { NamesText update }
    ensures { IfOk result HasReason }
{
    match state.apply(update) {
        Ok(Applied::New | Applied::Gone) => Ok(Reply::Applied(UpdateDone::Ok)),
        Ok(Applied::Replaced) => Ok(Reply::Applied(UpdateDone::Replaced)),
        Ok(Applied::Absent) => Ok(Reply::Applied(UpdateDone::Absent)),
        Err(_) => Err("the map is full".into()),
    }
}

// The reply to a line in a state.
fn replied(alloc: Global, state: &mut State, line: &str) -> Result<Reply, Fail>
    ensures { IfOk result HasReason }
{
    match read_line(alloc, line.as_bytes()) {
        Ok(Line::Do(update)) => applied(state, update),
        Ok(Line::Ask { query, explain }) => Ok(Reply::Found {
            answer: state.answer(&query)?,
            query,
            explain,
        }),
        Ok(_) => Err("another line".into()),
        Err(LineFault::Memory) => Err("no memory".into()),
        Err(fault) => Ok(Reply::Bad(fault)),
    }
}

// Whether the lines of a text have the replies that it gives.
fn is_replied(alloc: Global, text: &str) -> Result<bool, Fail> {
    let mut state = State::new(alloc);
    let (mut wanted, mut replies) = (Vec::new(alloc), Vec::new(alloc));
    for line in text.lines() {
        if line == "new" {
            state = State::new(alloc);
        } else if let Some(asked) = line.strip_prefix("> ") {
            let reply = replied(alloc, &mut state, asked)?;
            reply_text(alloc, &reply, &mut replies)?;
        } else {
            wanted.extend_from_slice(line.as_bytes())?;
            wanted.push(b'\n')?;
        }
    }
    Ok(wanted.as_slice() == replies.as_slice())
}

#[test]
fn a_query_may_have_a_scale(rt: HostRuntime) -> Result<(), Fail> {
    assert!(rt; is_replied(rt.alloc(), SCALED)?);
    Ok(())
}

#[test]
fn a_scale_in_another_place_is_refused(rt: HostRuntime) -> Result<(), Fail> {
    assert!(rt; is_replied(rt.alloc(), REFUSED)?);
    Ok(())
}

#[test]
fn places_are_gathered_by_least_sum(rt: HostRuntime) -> Result<(), Fail> {
    assert!(rt; is_replied(rt.alloc(), GATHERED)?);
    Ok(())
}

#[test]
fn a_rare_word_weighs_more(rt: HostRuntime) -> Result<(), Fail> {
    assert!(rt; is_replied(rt.alloc(), RARE)?);
    Ok(())
}
