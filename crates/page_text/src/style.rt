//! How the page looks.

/// Fonts, colours on light and on dark pages, and what is printed. Each colour has a contrast of at least 4.5 to 1 to its page (Web
/// Content Accessibility Guidelines 2.2, 1.4.3).
pub(crate) const STYLE: &str = "<style>
:root{color-scheme:light dark}
body{margin:0;font:16px/1.45 Helvetica,Arial,sans-serif;color:#1b2733;background:#fff}
header,main,footer{max-width:1600px;margin:0 auto;padding:0 16px}
h1{font-size:26px;margin:16px 0 4px}
h2{font-size:20px;margin:20px 0 8px}
h3{font-size:18px;margin:0 0 4px}
h4{font-size:15px;margin:12px 0 4px}
p{margin:4px 0}
a{color:#1e429f}
[hidden]{display:none!important}
.steps{position:sticky;top:0;z-index:1;background:#fff;border-bottom:1px solid #6b7a89}
.steps{padding:8px 16px;display:flex;flex-wrap:wrap;gap:10px;align-items:center}
.steps input{flex:1 1 240px}
.steps button{font:inherit;padding:4px 12px}
#said{flex:1 1 100%;min-height:1.5em}
:focus-visible{outline:3px solid #1e429f;outline-offset:2px}
.chart{overflow:auto;max-height:45vh;border:1px solid #6b7a89;border-radius:8px}
.drawing{min-width:720px;max-width:1100px;margin:0 auto}
.lanes{position:sticky;top:0;height:1.7em;background:#fff;border-bottom:1px solid #6b7a89}
.lanes span{position:absolute;font:600 14px/1.7 Helvetica,Arial,sans-serif;text-align:center;overflow:hidden;text-overflow:ellipsis;white-space:nowrap}
.chart svg{display:block;width:100%;height:auto}
.entry rect.clear{visibility:hidden}
.entry.now rect.clear{visibility:visible;stroke-width:3}
.grid{display:grid;grid-template-columns:repeat(auto-fit,minmax(min(100%,460px),1fr));gap:16px;align-items:start}
.who{border:1px solid #6b7a89;border-radius:8px;padding:12px;overflow-x:auto;min-width:0}
.wide{margin-top:16px}
table{border-collapse:collapse;width:100%;font-size:14px}
th,td{text-align:left;vertical-align:top;padding:4px 8px 4px 0;border-top:1px solid #8492a0;font-weight:400}
thead th{font-weight:700;border-top:none}
td>span{display:block}
.asked td:nth-child(2){width:52%}
tbody:not(:has(tr:not([hidden])))::after{content:'none'}
code,.action,.blind{font:13px/1.4 'DejaVu Sans Mono',Menlo,Consolas,monospace;overflow-wrap:anywhere}
summary{cursor:pointer}
.view{margin-top:4px;border-left:3px solid #1e429f;padding-left:6px}
.blind{border-left:3px dashed #4b5a69;padding-left:6px;color:#4b5a69}
.withheld{font-weight:700;color:#b91c1c}
.chip{font-size:12px;border:1px solid #1e429f;border-radius:9px;padding:0 6px;white-space:nowrap}
.i1{margin-left:6px}.i2{margin-left:12px}.i3{margin-left:18px}.i4{margin-left:24px}.i5{margin-left:30px}.i6{margin-left:36px}
.i7{margin-left:42px}.i8{margin-left:48px}.i9{margin-left:54px}.i10{margin-left:60px}.i11{margin-left:66px}.i12{margin-left:72px}
@media (prefers-color-scheme:dark){
body,.steps,.lanes{color:#e6edf3;background:#0f1620}
a{color:#a9c7ff}
:focus-visible{outline-color:#a9c7ff}
.view,.chip{border-color:#a9c7ff}
.blind{border-color:#a7b4c2;color:#a7b4c2}
.withheld{color:#fca5a5}
}
@media print{
:root{color-scheme:light}
.steps{position:static;border:none}
.steps button,.steps input,.steps label{display:none}
.chart{max-height:none;overflow:visible;border:none}
.lanes{position:relative}
.who{break-inside:auto}
}
</style>
";
