// What the program writes: a line for each paragraph, and a tally.
use crate::score::{Course, Score};
use std::io;

// Begins a paragraph, and writes its title.
pub fn begin_paragraph(rt: &impl Print, score: &mut Score, title: &[u8]) -> io::Result<()> {
    score.begin_paragraph();
    rt.write_all(title)
}

// Ends the paragraph under way, if there is one: its line is written already where it has failed.
pub fn end_paragraph(rt: &impl Print, score: &mut Score) -> io::Result<()> {
    if score.paragraphs == 0 {
        return Ok(());
    }
    match score.course {
        Course::Failed => score.count_failure(),
        Course::Unseen(_) => {
            println!(rt; ": FAILED, its last answer is not looked at")?;
            score.count_failure();
        }
        Course::Well => {
            println!(rt; ": {} checks, ok", score.checks)?;
            score.count_checks();
        }
    }
    Ok(())
}

// Says of a line that failed which it is, and what came.
pub fn report_line(rt: &impl Print, number: usize, line: &[u8], came: &[u8]) -> io::Result<()> {
    print!(rt; ": FAILED at line {number}, `")?;
    rt.write_all(line)?;
    rt.write_all(b"`: came `")?;
    rt.write_all(came)?;
    rt.write_all(b"`\n")
}

// How many paragraphs there were, and how they went.
pub fn tally(rt: &impl Print, score: &Score) -> io::Result<()> {
    print!(rt; "{} paragraphs, ", score.paragraphs)?;
    print!(rt; "{} checks passed, ", score.passed)?;
    println!(rt; "{} paragraphs failed", score.failures)
}
