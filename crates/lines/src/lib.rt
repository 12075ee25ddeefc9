// The lines that the list program prints. Each is a text whose type has room for the longest, so that only `push_ran`, which adds them to one text,
// asks for room.
// Kept: no `write!`: `push_ran` cannot fail, and of `write!(out, "words {n}\n")` where room is left the goal `IsOk c.write.result` stayed open.
#![tactic(auto)]

ghost use Rattle.std.specs.Prelude.{◌≡◌, ◌+◌, ◌*◌, ◌≤◌, [], ◌++◌, length};
ghost use Rattle.arrayvec.specs.ArrayString.{array_string_len};
ghost use Rattle.lines.specs.Lines.{refused_line, counts_after, outcome, word_line, word_lines, words_line, total_line, ran_lines, ToggledFits};

use arrayvec::ArrayString;

// Toggled, written and percent, to the line's end. What a word's line is made of goes onto `out` piece by piece: texts of its own, handed out and
// copied from one to the next, took three times as long.
fn push_counts<const N: usize>(out: &mut ArrayString<N>, toggled: u32, written: u32)
    requires { array_string_len out.old + 63 ≤ N }
    ensures text { out.new.bytes ≡ out.old.bytes ++ counts_after [] toggled written }
    ensures upper_bound { array_string_len out.new ≤ array_string_len out.old + 63 }
{
    pieces::push_decimal(out, toggled as u64);
    out.push_str(" ");
    pieces::push_decimal(out, written as u64);
    out.push_str(" ");
    pieces::push_decimal(out, rate::percent(toggled, written));
    out.push_str("\n");
}

// What became of a word, to the line's end.
// Kept: `refusal == 0`, and toggled beside written: they are numbers of the report, which is the C interface, and of what a line says.
fn push_outcome<const N: usize>(out: &mut ArrayString<N>, refusal: u32, toggled: u32, written: u32)
    requires { array_string_len out.old + 64 ≤ N }
    ensures text { out.new.bytes ≡ out.old.bytes ++ outcome refusal toggled written }
    ensures upper_bound { array_string_len out.new ≤ array_string_len out.old + 64 }
{
    if refusal == 0 {
        out.push_str(" ");
        push_counts(out, toggled, written);
        return;
    }
    out.push_str(" refused ");
    pieces::push_decimal(out, refusal as u64);
    out.push_str("\n");
}

// The line of a word: its number from 1 on, the word, and what became of it.
fn push_word<const N: usize>(
    out: &mut ArrayString<N>,
    number: usize,
    word: u32,
    refusal: u32,
    toggled: u32,
    written: u32,
)
    requires { array_string_len out.old + 93 ≤ N }
    ensures text { out.new.bytes ≡ out.old.bytes ++ word_line number word refusal toggled written }
    ensures upper_bound { array_string_len out.new ≤ array_string_len out.old + 93 }
{
    pieces::push_decimal(out, number as u64);
    out.push_str(" ");
    pieces::push_hex8(out, word);
    push_outcome(out, refusal, toggled, written);
}

// How many words a list has.
#[tactic(auto, unfolding(crate::specs::Lines::words_line))]
fn words_line(words: usize) -> ArrayString<27>
    ensures { result.bytes ≡ words_line words }
{
    let mut line = ArrayString::new();
    line.push_str("words ");
    line.push_str(&pieces::decimal(words as u64));
    line.push_str("\n");
    line
}

#[tactic(auto, unfolding(crate::specs::Lines::total_line, crate::specs::Lines::counts_after))]
fn total_line(toggled: u32, written: u32) -> ArrayString<69>
    ensures { result.bytes ≡ total_line toggled written }
{
    let mut line = ArrayString::new();
    line.push_str("total ");
    push_counts(&mut line, toggled, written);
    line
}

// The first is word 0, and its line begins with the number 1.
fn push_lines<const N: usize>(out: &mut ArrayString<N>, words: &[u32], report: &[u32])
    requires room { array_string_len out.old + 93 * length words.now ≤ N }
    requires fours { (4 * length words.now ≤ length report.now) × ToggledFits report.now (length words.now) }
    ensures text { out.new.bytes ≡ out.old.bytes ++ word_lines words.now report.now (length words.now) }
    ensures upper_bound { array_string_len out.new ≤ array_string_len out.old + 93 * length words.now }
{
    let (fours, _) = report.as_chunks::<4>();
    for (i, (word, numbers)) in words.iter().zip(fours).enumerate() {
        let [refusal, rises, falls, written] = *numbers;
        push_word(out, i + 1, *word, refusal, rises + falls, written);
    }
}

// The line of a refused list.
#[tactic(auto, unfolding(crate::specs::Lines::refused_line))]
pub fn refused_line(number: u32, place: usize) -> ArrayString<53>
    ensures { result.bytes ≡ refused_line number place }
{
    let mut line = ArrayString::new();
    line.push_str("refused ");
    line.push_str(&pieces::decimal(number as u64));
    line.push_str(" at ");
    line.push_str(&pieces::decimal(place as u64));
    line.push_str("\n");
    line
}

// Adds the lines of a list that ran: how many words, a line for each, and the total. The first and the last have at most
// 96 bytes together, and a word's line has at most 93.
pub fn push_ran<const N: usize>(
    out: &mut ArrayString<N>,
    words: &[u32],
    report: &[u32],
    toggled: u32,
    written: u32,
)
    requires room { array_string_len out.old + 96 + 96 * length words.now ≤ N }
    requires fours { (4 * length words.now ≤ length report.now) × ToggledFits report.now (length words.now) }
    ensures { out.new.bytes ≡ out.old.bytes ++ ran_lines words.now report.now toggled written }
{
    out.push_str(&words_line(words.len()));
    push_lines(out, words, report);
    out.push_str(&total_line(toggled, written));
}
