// The exports for C: the calls of `host` under the names that include/gingerpost.h declares, each with the clauses of the call that it hands on.
#![tactic(auto)]

ghost use Rattle.std.specs.Prelude.{◌≡◌, take};
ghost use Rattle.rewriting.specs.DemandWords.{DemandWords};
ghost use Rattle.host.specs.Bytes.{words_of_bytes};
ghost use Rattle.host.specs.Entry.{number_of, answer_in, rewrite_bytes, rewrite_bytes_lent, report_bytes, ReportBytesLent};

// Rewrites the module in `bytes`; the answer's bytes go to the start of `out`. The number holds the three answers.
#[unsafe(no_mangle)]
pub extern "C" fn gingerpost_rewrite(bytes: &[u8], out: &mut [u8]) -> u64
    ensures number { result ≡ number_of (rewrite_bytes bytes.now out.old) }
    ensures lent { out.new ≡ rewrite_bytes_lent bytes.now out.old }
    ensures demand { (answer_in result).code ≡ 0 → DemandWords (words_of_bytes bytes.now) (take (answer_in result).written (words_of_bytes out.new)) }
{
    host::gingerpost_rewrite(bytes, out)
}

// Writes the symbol report of the module in `bytes` to the start of `out`. The number holds the three answers.
#[unsafe(no_mangle)]
pub extern "C" fn gingerpost_report(bytes: &[u8], out: &mut [u8]) -> u64
    ensures number { result ≡ number_of (report_bytes bytes.now out.old) }
    ensures lent { ReportBytesLent bytes.now out.old out.new }
{
    host::gingerpost_report(bytes, out)
}
