//! The style sheet of the page.

ghost use Rattle.std.specs.Prelude.{◌≡◌, true};
ghost use Rattle.flt_explain_html.specs.Read.{is_plain};

/// The style sheet: without fonts and pictures from elsewhere, in light and dark, for wide and narrow windows.
const STYLE: &str = "\
:root{color-scheme:light dark;--ground:#fff;--panel:#f6f7f9;--words:#1d2026;--faint:#667080;--edge:#dde1e7;--error:#b3261e;\
--warning:#8a5a00;--link:#0b57d0;--place:#fdeceb;--target:#fff4c2}\
@media (prefers-color-scheme:dark){:root{--ground:#15181d;--panel:#1c2027;--words:#d9dee6;--faint:#8b95a5;--edge:#303742;--error:#ff8078;\
--warning:#e6b450;--link:#82b4ff;--place:#3a2023;--target:#4a4118}\
svg [fill=\"#ffffff\"]{fill:#1c2027}svg text[fill=\"#ffffff\"]{fill:#fff}svg [fill=\"#202020\"]{fill:#d9dee6}svg [fill=\"#808080\"]{fill:#9aa4b3}\
svg [fill=\"#b00020\"]{fill:#ff8078}svg [fill=\"#fde3e6\"]{fill:#4a2226}}\
*{box-sizing:border-box}\
[id]{scroll-margin-top:2rem}\
body{margin:0;background:var(--ground);color:var(--words);font:15px/1.5 system-ui,sans-serif}\
header{padding:.7rem 1rem;border-bottom:1px solid var(--edge);background:var(--panel)}\
h1{display:inline;margin:0 .8rem 0 0;font-size:1rem;color:var(--faint);font-weight:normal}\
header p{display:inline;margin:0;font-weight:600}\
header p a{color:inherit}\
nav{margin-top:.3rem;max-height:5.5rem;overflow:auto}\
nav a{margin-right:.9rem;white-space:nowrap}\
a{color:var(--link);text-decoration:none}\
a:hover{text-decoration:underline}\
main{padding:1rem}\
h2{margin:0 0 .4rem;font-size:1rem}\
section{margin-bottom:1.5rem}\
pre{margin:0;font:13px/1.5 ui-monospace,monospace;overflow-x:auto}\
section pre{padding:.5rem 0;border:1px solid var(--edge);border-radius:6px;background:var(--panel)}\
section span{display:block;min-width:max-content;padding-right:1rem;border-left:3px solid transparent}\
section span a{display:inline-block;width:3.2rem;margin-right:1rem;text-align:right;color:var(--faint);user-select:none}\
section .place{background:var(--place);border-left-color:var(--error)}\
section .place a{color:var(--error);font-weight:bold}\
span:target,article a:target{background:var(--target)}\
article{margin-bottom:1rem;padding:.7rem .9rem;border:1px solid var(--edge);border-left:4px solid var(--edge);border-radius:6px}\
.error{border-left-color:var(--error)}\
.warning{border-left-color:var(--warning)}\
.error b{color:var(--error)}\
.warning b{color:var(--warning)}\
.other{padding:.2rem .9rem;border-color:transparent}\
.run{display:flex;flex-wrap:wrap;gap:.3rem 1.5rem}\
.run pre{flex:1 1 22rem;min-width:0}\
figure{order:1;flex:0 1 auto;min-width:0;margin:.4rem 0;overflow-x:auto}\
svg{display:block;border-radius:4px}\
@media screen and (min-width:75rem){body{display:flex;flex-direction:column;height:100vh}main{flex:1;display:grid;grid-template-columns:2fr 3fr;\
gap:1rem;min-height:0;padding:0 1rem}.texts,.reports{overflow:auto;padding:1rem 0}}\
";

/// The style sheet, which ends no element.
pub(crate) fn style() -> &'static str
    ensures { is_plain result.now ≡ true }
{
    STYLE
}
