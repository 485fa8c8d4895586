//! How that looks which the script makes.

/// The rules for it, for the page's `<style>`. No character of them is escaped.
pub fn style_text() -> &'static [u8] {
    br".grid li[hidden]{display:none}
.group,.drawing,.ending{content-visibility:auto}
.grid .group li,.grid details::details-content{content-visibility:visible}
.grid details:not([open]) ol{display:none}
.grid ol,.grid li,.grid summary{counter-reset:none;counter-increment:none;counter-set:none}
.grid summary::before,.grid [open] summary::before{content:attr(x);top:.5rem;left:.125rem;width:.5rem;height:.5rem;background:var(--soft);clip-path:polygon(15% 0,100% 50%,15% 100%)}
.grid [open] summary::before{clip-path:polygon(0 15%,100% 15%,50% 100%)}
.drawing,.ending{contain-intrinsic-height:auto 60rem}
.device-tree .group,.long .group,.stepper pre div{width:max-content;min-width:100%}
.device-tree .group{contain-intrinsic-height:auto 128rem}
.long .group{contain-intrinsic-height:auto 46rem}
.long tbody{display:block}
.long tr{display:grid;grid-template-columns:4em 20em minmax(9em,24em) 7em 7em}
.stepper pre div{content-visibility:auto}
.grid code{scroll-margin:3rem 0 50vh}
.grid .here:not(.fold) code,.grid .fold.here summary code{outline:2px solid var(--mark);outline-offset:-2px}
.stepper{position:sticky;bottom:0;z-index:3;margin-top:1rem;max-height:50vh;overflow:auto;padding:.5rem 0;background:var(--paper);border-top:2px solid var(--mark)}
.stepper-row{display:flex;flex-wrap:wrap;align-items:center;gap:.25rem .75rem}
.stepper-row input[type=range]{flex:1 1 10rem;min-width:6rem}
.stepper label{display:flex;align-items:center;gap:.25rem;color:var(--soft)}
.stepper input[type=search]{width:10rem;max-width:40vw;font:inherit}
.stepper button{min-width:2.5rem;font:inherit}
.stepper summary{font-weight:600;overflow-wrap:anywhere;padding:.25rem 0}
.stepper-boxes{display:grid;grid-template-columns:repeat(auto-fit,minmax(min(100%,20rem),1fr));gap:.5rem}
.stepper h2{margin:0;font-size:.875rem;color:var(--soft)}
.stepper pre{max-height:26vh;overflow:auto;padding:.25rem .5rem;line-height:1.25rem}
.stepper mark{background:var(--mark);color:var(--paper)}
@media (max-width:699px){.stepper-row{gap:.25rem .5rem}.stepper input[type=search]{width:5rem}.stepper pre{max-height:12rem}}
@media print{.stepper{display:none}.grid .group:not([hidden]){display:contents}.group,.drawing,.ending{content-visibility:visible}}
"
}
