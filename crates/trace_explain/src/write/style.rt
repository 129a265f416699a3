//! The style of a page of HTML. The page contains it, so that it needs no other file.

/// The rules of the style.
pub const STYLE: &str = "\
:root { color-scheme: light dark; --ink: #1b2430; --soft: #5b6776; --page: #f5f6f8;
  --box: #ffffff; --line: #ccd3db; --to: #0b5fae; --from: #1d7a46; --bad: #b3261e;
  --warn: #8a5a00; }
@media (prefers-color-scheme: dark) { :root { --ink: #e4e8ee; --soft: #9aa6b5; --page: #14181d;
  --box: #1d232b; --line: #3a4451; --to: #7db7f5; --from: #74cf9b; --bad: #ff8a80;
  --warn: #f0b95b; } }
body { margin: 0; background: var(--page); color: var(--ink);
  font: 15px/1.45 system-ui, sans-serif; }
main { max-width: 60rem; margin: 0 auto; padding: 1rem; display: flex; flex-direction: column; }
h1 { font-size: 1.3rem; margin: 0 0 .8rem; order: -3; }
section { order: -2; margin: 0 0 .8rem; padding: .5rem .8rem; background: var(--box);
  border: 1px solid var(--line); border-radius: .4rem; }
h2 { font-size: 1rem; margin: 0 0 .3rem; }
section .m { margin: 0; padding: .1rem 0; background: none; display: flex; text-align: left; }
section .m::before, section .m::after { display: none; }
section .m b { width: 7rem; flex: none; }
section p { margin: .3rem 0 0; overflow-wrap: anywhere; }
a { color: var(--to); white-space: nowrap; }
.tools { display: flex; gap: .5rem; margin: 0 0 .5rem; order: -1; }
.tools input { flex: 1; min-width: 0; font: inherit; padding: .2rem .5rem; }
.tools button { font: inherit; padding: .2rem .8rem; }
.ends { order: -1; position: sticky; top: 0; z-index: 1; display: flex;
  justify-content: space-between; padding: .35rem 1.6rem; background: var(--page);
  border-bottom: 1px solid var(--line); font-weight: 600; }
.ends :first-child { color: var(--to); }
.ends :last-child { color: var(--from); }
details { margin: .35rem 0; background: var(--box); border: 1px solid var(--line);
  border-radius: .4rem; break-inside: avoid; scroll-margin-top: 2.5rem;
  content-visibility: auto; contain-intrinsic-size: auto 2.3rem; }
details[open] { padding-bottom: .6rem; contain-intrinsic-size: auto 11rem; }
details.part { background: none; border: 0; content-visibility: visible; }
.part:not([open]) summary { background: var(--box); border: 1px solid var(--line);
  border-radius: .4rem; }
details.cut { border-style: dashed; }
details.error { border-color: var(--bad); }
details.error summary, summary .failed { color: var(--bad); }
summary .well { color: var(--from); }
summary .warning { color: var(--warn); }
summary b { font: 600 13px/1.4 ui-monospace, monospace; }
summary { position: relative; padding: .4rem .8rem; cursor: pointer; font-weight: 600;
  overflow-wrap: anywhere; }
summary:focus-visible { outline: 2px solid var(--to); outline-offset: -2px; }
summary span { font: 13px/1.4 ui-monospace, monospace; }
:is(.well, .warning, .failed, .cut)[open] span { display: none; }
summary i { position: absolute; left: .4rem; bottom: 0; height: .25rem;
  width: calc((100% - .8rem) * var(--all) / var(--most));
  background: repeating-linear-gradient(90deg, var(--to) 0 2px, transparent 2px 5px); }
summary i::before { content: \"\"; display: block; height: 100%; background: var(--from);
  width: calc(100% * var(--card) / var(--all)); }
summary small { color: var(--soft); font-weight: 400; white-space: nowrap; }
.m { position: relative; margin: .15rem 1.6rem; padding: .2rem .8rem .5rem; }
.m::before, .m::after { content: \"\"; position: absolute; top: -.2rem; bottom: -.2rem;
  border-left: 2px solid var(--line); }
.m::before { left: 0; }
.m::after { right: 0; }
.m b { color: var(--soft); font-weight: 400; font-size: .82rem; }
.m pre { margin: 0; font: 13px/1.4 ui-monospace, monospace; white-space: pre-wrap;
  overflow-wrap: anywhere; }
.m i { display: block; position: absolute; bottom: .1rem; left: .15rem; right: .15rem; height: 0;
  border-bottom: 2px solid; }
.m i::after { content: \"\"; position: absolute; top: -.4rem; border: .46rem solid transparent; }
.t i { border-color: var(--to); }
.t i::after { right: 0; border-left-color: var(--to); border-right-width: 0; }
.c { text-align: right; }
.c pre { display: inline-block; text-align: left; }
.c b { display: block; }
.c i { border-color: var(--from); }
.c i::after { left: 0; border-right-color: var(--from); border-left-width: 0; }
.n { background: var(--page); text-align: center; }
.n pre { display: inline-block; text-align: left; }
.n b { display: block; }
pre.note { margin: .4rem 0; padding: 0 .8rem; color: var(--soft);
  font: 13px/1.4 ui-monospace, monospace; white-space: pre-wrap; overflow-wrap: anywhere; }
@media print { body { background: none; } .ends { position: static; }
  .tools { display: none; }
  details { content-visibility: visible; }
  details::details-content { content-visibility: visible; } }
";

/// The page before its title.
pub const HEAD: &str = "\
<!DOCTYPE html>
<html lang=\"en\">
<head>
<meta charset=\"utf-8\">
<meta name=\"viewport\" content=\"width=device-width, initial-scale=1\">
<title>";

/// The page from the end of its script to its heading.
pub const HEAD_END: &str = "\
</script>
</head>
<body>
<main>
";

/// The page from its heading to its first box or note.
pub const HEADING_END: &str = "\
</h1>
<div class=\"ends\"><span>Terminal</span><span>Card</span></div><div>
";
