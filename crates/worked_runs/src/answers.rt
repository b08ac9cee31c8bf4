//! What the words of the pages ask.
//!
//! - `file PATH TEXT` puts a file on the shelf, and `object PATH TEXT` one in whose text `<` and
//!   `>` stand for `{` and `}`;
//! - `portions R W`: from here a read gives at most R bytes, and a write takes at most W;
//! - `shelf_fails N ..`, `sink_fails N ..`: from here these calls fail, counted from 1 in each run;
//! - `run WORD ..`: the status and what was written by a run on these words, of which `''` is
//!   empty, with `\n` for the end of a line;
//! - `verdicts QUERY`: the query is put into the file `q` and judged under the schema of the file
//!   `s`; the status, and of each question its code and verdict, `spent` without its number;
//! - `thrifty`: the query of the file `q` is judged once more, with a budget of one case: how many of
//!   its questions have the verdict that they have with the usual budget, were given up after more
//!   than one case, or have what follows from one that was;
//! - `recheck`: the certificates of the files `s` and `q` are written, and checked in another run:
//!   its status, and how many were accepted of how many questions that hold always.
use crate::reports::{accepted, always, shown, thrifty, verdicts};
use crate::setting::{Setting, Written};
use case_pages::{Answering, Page, said};
use lint_base::NoMemory;
use std::alloc::Global;

/// Answers by whole runs over the files that the page put on the shelf.
#[derive(Drop)]
pub(crate) struct Runs {
    setting: Setting,
}

impl Runs {
    pub(crate) fn new(alloc: Global) -> Runs {
        Runs {
            setting: Setting::new(alloc),
        }
    }

    fn judged(&self, alloc: Global) -> Result<Written, NoMemory> {
        self.setting.run(alloc, "s q")
    }

    fn verdicts(&mut self, alloc: Global, query: &str) -> Result<String, NoMemory> {
        self.setting.put(alloc, "q", query)?;
        let report = self.judged(alloc)?;
        verdicts(alloc, report.status, report.text.as_str())
    }

    fn thrifty(&mut self, alloc: Global) -> Result<String, NoMemory> {
        let usual = self.judged(alloc)?;
        let small = self.setting.run(alloc, "--budget 1 s q")?;
        thrifty(alloc, usual.text.as_str(), small.text.as_str())
    }

    fn recheck(&mut self, alloc: Global) -> Result<String, NoMemory> {
        let report = self.judged(alloc)?;
        let certs = self.setting.run(alloc, "--certs s q")?;
        self.setting.put(alloc, "c", certs.text.as_str())?;
        let checks = self.setting.run(alloc, "--check c s q")?;
        let (right, all) = (accepted(checks.text.as_str()), always(report.text.as_str()));
        Ok(format!(in alloc; "{}: {right} of {all}", checks.status)?)
    }
}

impl Answering for Runs {
    fn answer(
        &mut self,
        alloc: Global,
        _page: &Page,
        word: &str,
        text: &str,
    ) -> Result<String, NoMemory> {
        match word {
            "file" => self.setting.put_file(alloc, text)?,
            "object" => self.setting.put_object(alloc, text)?,
            "portions" => self.setting.set_portions(alloc, text)?,
            "shelf_fails" => self.setting.fail_on_shelf(alloc, text)?,
            "sink_fails" => self.setting.fail_on_sink(alloc, text)?,
            "run" => {
                let written = self.setting.run(alloc, text)?;
                return shown(alloc, written.status, written.text.as_str());
            }
            "verdicts" => return self.verdicts(alloc, text),
            "thrifty" => return self.thrifty(alloc),
            "recheck" => return self.recheck(alloc),
            _ => return said(alloc, "no such word"),
        }
        said(alloc, "read")
    }
}
