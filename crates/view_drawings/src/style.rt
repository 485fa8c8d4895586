/// The rules for the classes of these drawings, for the page's style element.
pub const STYLE: &[u8] = b"\
.drawing{--used:#2476d2;--soft:color-mix(in srgb,currentColor 9%,transparent);--given:#b85c00;margin:1em 0;max-width:100%}\n\
.drawing code{font-size:13px}\n\
.drawing-title{font-weight:bold;margin:0 0 .5em}\n\
.drawing-scroll{overflow-x:auto;max-width:100%}\n\
.drawing svg{display:block}\n\
.drawing svg text{font-family:ui-monospace,monospace;font-size:12px;fill:currentColor}\n\
.state-diagram{width:100%;min-width:1040px;max-width:1240px}\n\
.state-box{fill:var(--soft);stroke:currentColor;stroke-width:1;stroke-opacity:.5}\n\
.state-box.used{stroke:var(--used);stroke-width:3;stroke-opacity:1}\n\
.drawing svg .state-words{font-size:14px;font-weight:bold}\n\
.row-line{fill:none;stroke:currentColor;stroke-width:1;stroke-opacity:.5;stroke-dasharray:4 3}\n\
.row-line.used{stroke:var(--used);stroke-width:3;stroke-opacity:1;stroke-dasharray:none}\n\
.drawing svg .row-words{fill-opacity:.75}\n\
.drawing svg .row-words.used{fill:var(--used);fill-opacity:1;font-weight:bold}\n\
.row-words.before{text-anchor:end}\n\
.device-tree{list-style:none;margin:0;padding:0;overflow-x:auto}\n\
.device-tree li{box-sizing:border-box;padding:.25em 0 .25em .5em;margin-left:calc(var(--depth)*1.25em);min-width:15em;border-left:2px solid var(--used);margin-bottom:2px}\n\
.device-tree span{opacity:.75;margin-right:.5em}\n\
.device-tree b{font:bold 13px ui-monospace,monospace;overflow-wrap:anywhere;margin-right:.5em}\n\
.device-tree em{font-style:normal;font-size:.85em;border:1px solid currentColor;border-radius:4px;padding:0 .4em;margin-right:.5em}\n\
.device-tree .tree-problem{color:var(--given);opacity:1;font-weight:bold}\n\
.device-tree div{font-size:.9em}\n\
.device-tree code{overflow-wrap:anywhere;background:var(--soft);border-radius:4px;padding:0 .3em;margin:0 .4em .2em 0;display:inline-block}\n\
.map-kind{font-weight:bold;margin:1em 0 .25em}\n\
.map-none,.map-note{margin:.5em 0 0;font-size:.85em;opacity:.8}\n\
.block{fill:var(--soft);stroke:currentColor;stroke-width:1}\n\
.block.shared{stroke-dasharray:5 3}\n\
.block.reserved{fill:none;stroke-dasharray:1 3}\n\
.block.moved{stroke:var(--used);stroke-width:3}\n\
.axis-break,.row-loop{fill:none;stroke:currentColor;stroke-width:1}\n\
.row-loop.used{stroke:var(--used);stroke-width:2}\n\
.axis{fill:currentColor}\n\
.drawing svg .axis-words{font-size:12px}\n\
.drawing svg .bar-words{font-style:italic}\n\
.map-table{display:block;overflow-x:auto;border-collapse:collapse;font-size:.85em;margin:.25em 0 0}\n\
.map-table td{padding:.1em .75em .1em 0;vertical-align:top}\n\
.map-table td:nth-child(-n+3){font-family:ui-monospace,monospace}\n\
.map-table td:first-child{white-space:nowrap}\n\
.map-table td:nth-child(3){overflow-wrap:anywhere;min-width:9em}\n\
.map-table .moved td:nth-child(5){font-weight:bold;color:var(--used)}\n\
";
