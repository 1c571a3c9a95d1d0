use number_grammar::Stage;

static TEXTS: [(&str, bool); 18] = [
    ("0", true),
    ("-0", true),
    ("10", true),
    ("-1.50", true),
    ("1e5", true),
    ("1E+05", true),
    ("0.0e-99", true),
    ("", false),
    ("-", false),
    ("+1", false),
    ("01", false),
    ("1.", false),
    (".5", false),
    ("1e", false),
    ("1e+", false),
    ("--1", false),
    ("1 ", false),
    ("0x1", false),
];

fn is_number(text: &str) -> bool {
    let mut stage = Stage::Start;
    for byte in text.as_bytes() {
        let Some(next) = stage.next(*byte) else {
            return false;
        };
        stage = next;
    }
    stage.is_number()
}

#[test]
fn the_stages_pass_just_the_numbers(rt: HostRuntime) {
    for (text, want) in &TEXTS {
        assert_eq!(rt; is_number(text), *want, "{text}");
    }
}
