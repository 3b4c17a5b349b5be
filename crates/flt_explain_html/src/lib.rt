//! The page on reports of texts in HTML: the texts, the reports, and pictures of the runs in them.
//!
//! `escaping` writes bytes so that none of them is markup. `rows` says what a row of the reports is, and `places` finds the lines of texts
//! that rows name. `texts` writes texts with links to the reports on their lines, `reports` writes the reports with links to the lines and
//! with pictures, and `page` puts everything together, with the style sheet of `style`. `words` has the law that the words of the reports
//! are those that are printed.
#![tactic(auto)]

mod escaping;
mod page;
mod places;
mod reports;
mod rows;
mod style;
mod texts;
mod words;

pub use page::html_page;
pub use texts::ShownText;
pub use words::rows_are_the_print;
