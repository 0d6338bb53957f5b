// The calls for a host in C, under the names and in the order of include/nuntennis.h. None has a `requires`.
#![tactic(auto)]

ghost use Rattle.std.specs.Prelude.{◌≡◌, length};
ghost use Rattle.labels.specs.Labels.{label_count};
ghost use Rattle.expression.specs.Checks.{depth_outcome};
ghost use Rattle.expression.specs.Names.{name_of, naming_outcome};
ghost use Rattle.decisions.specs.Outcomes.{grounded_outcome, plain_outcome};
ghost use Rattle.leaves.specs.declared.Tables.TheVariants.{Pairs};
ghost use Rattle.reports.specs.Reports.{report_of};
ghost use Rattle.reporting.specs.Reporting.{report_answer, report_buffer, words_reported};
ghost use Rattle.checks.specs.Requests.{request};
ghost use Rattle.records.specs.Steps.{step, start, verdict};
ghost use Rattle.host_words.specs.Answers.{returned, unless_short, workspace_after, answer_of};
ghost use Rattle.host_words.specs.Reported.{report_words_of};
ghost use Rattle.host_words.specs.Walked.{progress_words_of};
ghost use Rattle.nuntennis.specs.Reported.{pairs_asked, triples_asked};

use checks::checking::Terms;
use expression::Pins;
use host_words::{ANSWER_WORDS, write_answer, write_report};
use records::Record;
use reporting::Report;

// What a host asks of a sheet, as the calls take it.
fn terms_of(p: u64, g: u64, pins_in: u64, pins_out: u64) -> Terms
    ensures { result ≡ record { pair_limit = p; subset_limit = g; pins = record { assumed_true = pins_in; assumed_false = pins_out } } }
{
    Terms {
        pair_limit: p,
        subset_limit: g,
        pins: Pins {
            assumed_true: pins_in,
            assumed_false: pins_out,
        },
    }
}

// The most parts that the sheet has at a time, for which a host lends words (02, Item 8).
#[unsafe(no_mangle)]
pub extern "C" fn nuntennis_depth(sheet: &[u8], answer: &mut [u64]) -> u64
    ensures value { result ≡ returned answer.old }
    ensures answer_after { answer.new ≡ unless_short answer.old answer.old (answer_of (depth_outcome label_count sheet.now) answer.old) }
{
    if answer.len() < ANSWER_WORDS {
        return 0;
    }
    let o = checks::outcomes::depth(sheet);
    write_answer(answer, o);
    1
}

// Where the last name of a copy begins in the sheet (02, Item 1).
#[unsafe(no_mangle)]
pub extern "C" fn nuntennis_name(sheet: &[u8], copy: u64, answer: &mut [u64]) -> u64
    ensures value { result ≡ returned answer.old }
    ensures answer_after { answer.new ≡ unless_short answer.old answer.old (answer_of (naming_outcome (name_of label_count sheet.now copy)) answer.old) }
{
    if answer.len() < ANSWER_WORDS {
        return 0;
    }
    let o = names::name_outcome(sheet, copy);
    write_answer(answer, o);
    1
}

// The grounded decision: nothing of it is free, and a yes shows the first grounded plan (02, Item 5).
#[unsafe(no_mangle)]
pub extern "C" fn nuntennis_grounded(
    sheet: &[u8],
    p: u64,
    g: u64,
    pins_in: u64,
    pins_out: u64,
    workspace: &mut [u32],
    answer: &mut [u64],
) -> u64
    ensures value { result ≡ returned answer.old }
    ensures answer_after { answer.new ≡ unless_short answer.old answer.old (answer_of (grounded_outcome label_count (request sheet.now p g (length workspace.old) pins_in pins_out)) answer.old) }
    ensures workspace_after { workspace.new ≡ workspace_after answer.old (request sheet.now p g (length workspace.old) pins_in pins_out) workspace.old }
{
    if answer.len() < ANSWER_WORDS {
        return 0;
    }
    let terms = terms_of(p, g, pins_in, pins_out);
    let o = calls::grounded(sheet, terms, workspace);
    write_answer(answer, o);
    1
}

// The plain decision: nothing of it is free, and a yes shows no mask.
#[unsafe(no_mangle)]
pub extern "C" fn nuntennis_plain(
    sheet: &[u8],
    p: u64,
    g: u64,
    pins_in: u64,
    pins_out: u64,
    workspace: &mut [u32],
    answer: &mut [u64],
) -> u64
    ensures value { result ≡ returned answer.old }
    ensures answer_after { answer.new ≡ unless_short answer.old answer.old (answer_of (plain_outcome label_count (request sheet.now p g (length workspace.old) pins_in pins_out)) answer.old) }
    ensures workspace_after { workspace.new ≡ workspace_after answer.old (request sheet.now p g (length workspace.old) pins_in pins_out) workspace.old }
{
    if answer.len() < ANSWER_WORDS {
        return 0;
    }
    let terms = terms_of(p, g, pins_in, pins_out);
    let o = plain_calls::plain(sheet, terms, workspace);
    write_answer(answer, o);
    1
}

// The report of the table of pairs after the command at the offset asked.
#[unsafe(no_mangle)]
pub extern "C" fn nuntennis_report(
    sheet: &[u8],
    asked: usize,
    p: u64,
    g: u64,
    pins_in: u64,
    pins_out: u64,
    workspace: &mut [u32],
    report: &mut [u32],
    answer: &mut [u64],
) -> u64
    ensures value { result ≡ returned answer.old }
    ensures answer_after { answer.new ≡ unless_short answer.old answer.old (report_words_of (report_answer (report_of Pairs) (length report.old) asked (pairs_asked (request sheet.now p g (length workspace.old) pins_in pins_out) asked)) answer.old) }
    ensures report_after { report.new ≡ unless_short answer.old report.old (report_buffer (report_of Pairs) report.old (pairs_asked (request sheet.now p g (length workspace.old) pins_in pins_out) asked)) }
    ensures workspace_after { workspace.new ≡ unless_short answer.old workspace.old (words_reported label_count (request sheet.now p g (length workspace.old) pins_in pins_out) asked workspace.old) }
{
    if answer.len() < ANSWER_WORDS {
        return 0;
    }
    let terms = terms_of(p, g, pins_in, pins_out);
    let r = report_calls::report(sheet, asked, terms, workspace, report);
    write_report(answer, Report::from(r));
    1
}

// The report of the plain table there.
#[unsafe(no_mangle)]
pub extern "C" fn nuntennis_plain_report(
    sheet: &[u8],
    asked: usize,
    p: u64,
    g: u64,
    pins_in: u64,
    pins_out: u64,
    workspace: &mut [u32],
    report: &mut [u32],
    answer: &mut [u64],
) -> u64
    ensures value { result ≡ returned answer.old }
    ensures answer_after { answer.new ≡ unless_short answer.old answer.old (report_words_of (report_answer (λ t. t) (length report.old) asked (triples_asked (request sheet.now p g (length workspace.old) pins_in pins_out) asked)) answer.old) }
    ensures report_after { report.new ≡ unless_short answer.old report.old (report_buffer (λ t. t) report.old (triples_asked (request sheet.now p g (length workspace.old) pins_in pins_out) asked)) }
    ensures workspace_after { workspace.new ≡ unless_short answer.old workspace.old (words_reported label_count (request sheet.now p g (length workspace.old) pins_in pins_out) asked workspace.old) }
{
    if answer.len() < ANSWER_WORDS {
        return 0;
    }
    let terms = terms_of(p, g, pins_in, pins_out);
    let r = report_calls::plain_report(sheet, asked, terms, workspace, report);
    write_report(answer, Report::from(r));
    1
}

// Starts a walk: the record is at place 0 without tables.
#[unsafe(no_mangle)]
pub extern "C" fn nuntennis_start(
    record: &mut Record,
    workspace: &mut [u32],
    sheet: &[u8],
    p: u64,
    g: u64,
    pins_in: u64,
    pins_out: u64,
    answer: &mut [u64],
) -> u64
    ensures value { result ≡ returned answer.old }
    ensures record_after { «record».new ≡ unless_short answer.old «record».old (start label_count (request sheet.now p g (length workspace.old) pins_in pins_out) «record».old workspace.old).state }
    ensures workspace_after { workspace.new ≡ unless_short answer.old workspace.old (start label_count (request sheet.now p g (length workspace.old) pins_in pins_out) «record».old workspace.old).words }
    ensures answer_after { answer.new ≡ unless_short answer.old answer.old (progress_words_of (start label_count (request sheet.now p g (length workspace.old) pins_in pins_out) «record».old workspace.old).answer answer.old) }
{
    let terms = terms_of(p, g, pins_in, pins_out);
    let t = walk_calls::tell_start(*record, workspace, sheet, terms, answer);
    *record = t.state;
    t.returned
}

// One command a call: does the command at the record's place.
#[unsafe(no_mangle)]
pub extern "C" fn nuntennis_step(
    record: &mut Record,
    workspace: &mut [u32],
    sheet: &[u8],
    p: u64,
    g: u64,
    pins_in: u64,
    pins_out: u64,
    answer: &mut [u64],
) -> u64
    ensures value { result ≡ returned answer.old }
    ensures record_after { «record».new ≡ unless_short answer.old «record».old (step label_count (request sheet.now p g (length workspace.old) pins_in pins_out) «record».old workspace.old).state }
    ensures workspace_after { workspace.new ≡ unless_short answer.old workspace.old (step label_count (request sheet.now p g (length workspace.old) pins_in pins_out) «record».old workspace.old).words }
    ensures answer_after { answer.new ≡ unless_short answer.old answer.old (progress_words_of (step label_count (request sheet.now p g (length workspace.old) pins_in pins_out) «record».old workspace.old).answer answer.old) }
{
    let terms = terms_of(p, g, pins_in, pins_out);
    let t = walk_calls::tell_step(*record, workspace, sheet, terms, answer);
    *record = t.state;
    t.returned
}

// The verdict at the end of a walk.
#[unsafe(no_mangle)]
pub extern "C" fn nuntennis_verdict(
    record: &Record,
    workspace: &[u32],
    sheet: &[u8],
    p: u64,
    g: u64,
    pins_in: u64,
    pins_out: u64,
    answer: &mut [u64],
) -> u64
    ensures value { result ≡ returned answer.old }
    ensures answer_after { answer.new ≡ unless_short answer.old answer.old (answer_of (verdict label_count (request sheet.now p g (length workspace.now) pins_in pins_out) «record».now workspace.now) answer.old) }
{
    let terms = terms_of(p, g, pins_in, pins_out);
    walk_calls::tell_verdict(*record, workspace, sheet, terms, answer)
}
