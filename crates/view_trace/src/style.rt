//! The style of the page: light and dark, for widths of 400 pixels and more, and for print.

/// The style of the page. No character of it is escaped.
pub fn style() -> &'static [u8] {
    b":root{color-scheme:light dark;--ink:#1b1d23;--soft:#565b68;--paper:#ffffff;--band:#eef1f6;--rule:#cfd4de;--ok:#17692e;--fail:#b3261e;--pend:#8a5a00;--violation:#7a2ea8;--mark:#0b5cad}\n\
@media screen and (prefers-color-scheme:dark){:root{--ink:#e7e9ee;--soft:#a4abb9;--paper:#14161a;--band:#1f232b;--rule:#3a404c;--ok:#6fcf86;--fail:#ff8a80;--pend:#e8b04a;--violation:#d7a0ff;--mark:#7ab8ff}}\n\
*,::before{box-sizing:border-box}\n\
body{display:flex;flex-direction:column;margin:0;padding:1rem;background:var(--paper);color:var(--ink);font:1rem/1.5 system-ui,sans-serif}\n\
h1{font-size:1.4rem;margin:0;overflow-wrap:anywhere}\n\
h2{font-size:1.15rem;margin:2rem 0 .5rem}\n\
header{order:-2}\n\
.wrong{order:-1;margin-bottom:1rem}\n\
.wrong h2{margin-top:0}\n\
header p{margin:.25rem 0;color:var(--soft)}\n\
code,pre,.heads,.grid li::before{font-family:ui-monospace,SFMono-Regular,Menlo,Consolas,monospace;font-size:.8125rem;line-height:1.5rem}\n\
.wrong ul{list-style:none;margin:0;padding:0}\n\
.wrong li{padding:.125rem 0 .125rem .5rem;border-left:4px solid var(--fail);margin-bottom:2px}\n\
.wrong a{color:var(--mark);margin-right:.5rem}\n\
.wrong code{font-weight:700;margin-right:.5rem;overflow-wrap:anywhere}\n\
.wrong span{color:var(--soft)}\n\
.legend{list-style:none;display:flex;flex-wrap:wrap;gap:.25rem 1.5rem;margin:.5rem 0 1rem;padding:0}\n\
.legend li{display:flex;align-items:center;gap:.5rem}\n\
.legend svg{width:60px;height:24px;flex:none}\n\
.grid path,.legend path{fill:none;stroke-width:1.75}\n\
path.ok{stroke:var(--ok)}\n\
path.fail{stroke:var(--fail)}\n\
path.pend{stroke:var(--pend);stroke-dasharray:5 3}\n\
path.told{stroke:var(--soft)}\n\
path.violation{stroke:var(--violation)}\n\
.run{container-type:inline-size;border:1px solid var(--rule);border-radius:6px}\n\
.grid{--n:24;--stick:static;--number:3.25rem;--lines:36rem;--from:var(--lines);--lane:clamp(14px,(100cqw - var(--from) - 16px)/var(--n),112px);display:inline-flex;flex-direction:column;vertical-align:top}\n\
.grid:has(.lanes-1){--n:1}.grid:has(.lanes-2){--n:2}.grid:has(.lanes-3){--n:3}.grid:has(.lanes-4){--n:4}.grid:has(.lanes-5){--n:5}.grid:has(.lanes-6){--n:6}.grid:has(.lanes-7){--n:7}.grid:has(.lanes-8){--n:8}.grid:has(.lanes-9){--n:9}.grid:has(.lanes-10){--n:10}.grid:has(.lanes-11){--n:11}.grid:has(.lanes-12){--n:12}.grid:has(.lanes-13){--n:13}.grid:has(.lanes-14){--n:14}.grid:has(.lanes-15){--n:15}.grid:has(.lanes-16){--n:16}.grid:has(.lanes-17){--n:17}.grid:has(.lanes-18){--n:18}.grid:has(.lanes-19){--n:19}.grid:has(.lanes-20){--n:20}.grid:has(.lanes-21){--n:21}.grid:has(.lanes-22){--n:22}.grid:has(.lanes-23){--n:23}.grid:has(.lanes-24){--n:24}.grid:has(.lanes-32){--n:32}.grid:has(.lanes-48){--n:48}.grid:has(.lanes-64){--n:64}.grid:has(.lanes-128){--n:128}.grid:has(.lanes-257){--n:257}\n\
.run:has(.lanes-64,.lanes-128,.lanes-257){overflow:auto;max-height:90vh}\n\
.heads{order:-1;position:sticky;top:0;z-index:2;display:flex;align-items:flex-end;background:var(--band);border-bottom:2px solid var(--rule);font-weight:600}\n\
.heads span{flex:none;width:var(--lane);max-height:12rem;padding:.25rem 0;overflow:hidden;white-space:nowrap;text-overflow:ellipsis;line-height:var(--lane);writing-mode:vertical-rl;transform:rotate(180deg)}\n\
.heads .client{font-style:italic;font-weight:400}\n\
.heads .lines{width:var(--from);padding:.25rem .75rem;line-height:1.5rem;writing-mode:horizontal-tb;transform:none;text-align:left}\n\
.grid ol{list-style:none;margin:0;padding:0}\n\
.grid .ask,.grid .notice,.grid .completion,.grid .fold,.grid summary{position:relative}\n\
.grid li,.grid summary{display:flex;min-height:1.5rem;scroll-margin-top:9rem;background:linear-gradient(to right,transparent calc(50% - .5px),var(--rule) calc(50% - .5px) calc(50% + .5px),transparent calc(50% + .5px)) var(--from) 0/var(--lane) 1.5rem}\n\
.grid li{content-visibility:auto;contain-intrinsic-size:auto 1.5rem}\n\
.grid .fold{display:block;content-visibility:visible;background:none}\n\
.grid li::before{content:attr(value);flex:none;width:var(--number);padding-right:.5rem;text-align:right;color:var(--soft);font-size:.6875rem;position:var(--stick);left:0;z-index:1;background:var(--paper)}\n\
.grid .fold::before{position:absolute;top:1px}\n\
.grid summary{list-style:none;padding-left:var(--number)}\n\
.grid summary::before{content:counter(list-item,disclosure-closed);position:absolute;left:.375rem;z-index:1;color:var(--soft)}\n\
.grid [open] summary::before{content:counter(list-item,disclosure-open)}\n\
.grid code{flex:none;width:calc(var(--lines) - var(--number));padding:0 .5rem;overflow-wrap:anywhere;position:var(--stick);left:var(--number);background:var(--paper);border-right:2px solid var(--rule);border-left:4px solid transparent}\n\
.grid svg{position:absolute;top:0;left:calc(var(--from) + var(--lane)*(var(--k) + .5));width:1px;height:1.5rem;overflow:visible;clip-path:inset(-1px -9px -1px calc(var(--lane)*var(--k)*-1))}\n\
.grid .within{border-left-color:var(--mark)}\n\
.grid .event,.grid summary{border-top:1px solid var(--rule)}\n\
:where(.grid li) code{color:var(--soft)}\n\
.ask code{color:var(--ink)}\n\
.event code,.grid summary code{font-weight:700;background:var(--band);color:var(--ink)}\n\
.grid li:target code,.grid li:target summary code{background:var(--mark);color:var(--paper)}\n\
.grid .fold:target li code{background:var(--paper);color:inherit}\n\
.refused code{color:var(--fail)}\n\
.operation code{font-weight:700;color:var(--mark)}\n\
.trouble code{color:var(--fail);font-weight:700}\n\
.notice code{color:var(--soft)}\n\
.notice code{font-style:italic}\n\
pre{overflow-x:auto;padding:.75rem;background:var(--band);border-radius:6px;margin:0}\n\
summary{cursor:pointer}\n\
.note{color:var(--soft)}\n\
.bad{order:-1;margin:0 0 1rem;color:var(--fail);font-weight:700}\n\
.ending,.waiting{margin:1rem 0}\n\
@media (max-width:1279px){.grid{--lines:27rem}}\n\
@media (max-width:899px){.grid{--lines:20rem}}\n\
@media (min-width:900px){.grid:has(.lanes-1,.lanes-2,.lanes-3,.lanes-4,.lanes-5){.heads span{writing-mode:horizontal-tb;transform:none;line-height:1.5rem;text-align:center;white-space:normal;overflow-wrap:anywhere}.heads .lines{text-align:left}}}\n\
@media (max-width:699px){body{padding:.5rem}.grid{--from:0px;--number:2.75rem;--lane:clamp(14px,(100cqw - 2px)/var(--n),400px);display:flex}.grid:has(.lanes-32,.lanes-48,.lanes-64,.lanes-128,.lanes-257){display:inline-flex;min-width:100%}.run:has(.lanes-32,.lanes-48){overflow:auto;max-height:90vh}.heads .lines{display:none}.grid li,.grid summary{flex-wrap:wrap}.grid code{width:calc(100% - var(--number));border-right:0}.grid .ask,.grid .notice,.grid .event.completion,.grid .completion summary{padding-bottom:1.5rem}.grid svg{top:auto;bottom:0}}\n\
@media screen{.grid:has(.lanes-64,.lanes-128,.lanes-257){--stick:sticky}}\n\
@page{size:landscape;margin:10mm}\n\
@media print{:root{color-scheme:light}html{font-size:11px}body{padding:0}*{print-color-adjust:exact}.run{border:0;overflow:visible;max-height:none}.grid{display:table;--lines:31rem;--from:var(--lines);--lane:clamp(2px,(100cqw - var(--from) - 16px)/var(--n),112px)}.heads{display:table-header-group;break-inside:avoid;position:static;font-size:0}.heads span{display:inline-block;vertical-align:bottom;font-size:.75rem;padding:.75rem 0}.grid ol{display:table-row-group}.grid svg{transform:scale(.6875);transform-origin:0 0;clip-path:inset(-1px -9px -1px calc(var(--lane)*var(--k)/-.6875))}.grid ol ol{display:block}.grid li,.grid summary{background-image:linear-gradient(to right,var(--rule) 1px,transparent 1px);background-position:calc(var(--from) + var(--lane)/2) 0}.grid .fold{background:none}.grid li{content-visibility:visible;break-inside:avoid}.grid .fold{break-inside:auto}h2,.drawing-title,.map-kind{break-after:avoid}.legend{margin:.25rem 0}}\n"
}
