//! How the page looks.

/// The head of the page, with its style.
macro_rules! style {
    ([$($before:literal)*] $next:ident $($later:ident)*) => {
        $next!([$($before)* r##"<!doctype html>
<html lang="en">
<head>
<meta charset="utf-8">
<meta http-equiv="Content-Security-Policy" content="default-src 'none'; style-src 'unsafe-inline'; script-src 'unsafe-inline'; connect-src 'self'; img-src data:">
<meta name="viewport" content="width=device-width">
<title>Draw a station</title>
<link rel="icon" href="data:,">
<style>
*{box-sizing:border-box}
[hidden]{display:none!important}
html,body{height:100%;margin:0}
body{display:grid;grid-template-rows:auto minmax(0,1.5fr) auto minmax(0,1fr);font:13px/1.35 system-ui,sans-serif;color:#111;background:#eceff1}
button,select,input,textarea{font:inherit;color:inherit}
button{border:1px solid #667;border-radius:3px;background:#fff;padding:2px 7px;cursor:pointer;white-space:nowrap}
button:hover:enabled{background:#e3ecf7}
button:disabled{opacity:.5;cursor:default}
:focus-visible{outline:3px solid #0b5fd0;outline-offset:1px}
kbd{font:11px monospace;border:1px solid #99a;border-radius:3px;padding:0 4px;background:#fff;color:#111}
header{display:flex;gap:8px;align-items:center;padding:5px 12px;background:#1d2b36;color:#fff}
header button{color:#111}
header input{font-size:15px;font-weight:700;letter-spacing:.05em;width:9em;min-width:5em;background:#2b3d4b;color:#fff;border:1px solid #51646f;border-radius:3px;padding:1px 6px}
.d-tools{display:flex;gap:3px}
.d-tools button[aria-pressed=true]{background:#f7d36b;font-weight:600;border-color:#f7d36b}
header .d-right{margin-left:auto;display:flex;gap:4px;align-items:center}
#d-run{background:#f7d36b;font-weight:600}
#d-file-name{flex:1 1 0;min-width:0;overflow:hidden;text-overflow:ellipsis;white-space:nowrap;color:#cdd6dc}
#d-plan{position:relative;min-height:0;background:#fff;border-bottom:1px solid #b6c1c9;overflow:hidden;touch-action:none}
#d-plan svg{display:block;width:100%;height:100%;user-select:none}
#d-plan svg:focus-visible{outline-width:2px;outline-offset:-2px}
#d-plan[data-tool=rail] svg,#d-plan[data-tool=joint] svg,#d-plan[data-tool=signal] svg,#d-plan[data-tool=border] svg,#d-plan[data-tool=erase] svg{cursor:crosshair}
#d-name{position:absolute;font:700 14px ui-monospace,monospace;width:11em;border:2px solid #0b5fd0;border-radius:3px;padding:1px 4px;background:#fff;z-index:3;box-shadow:0 2px 8px #0004}
#d-begin{position:absolute;left:50%;top:50%;transform:translate(-50%,-50%);background:#fffffff0;border:1px solid #b6c1c9;border-radius:6px;padding:12px 20px;pointer-events:none;color:#37474f}
#d-begin ol{margin:4px 0 0;padding-left:20px}
#d-begin b{color:#111}
#d-word{min-height:30px;padding:4px 12px;background:#fff;border-bottom:1px solid #b6c1c9;display:flex;gap:10px;align-items:baseline}
#d-said{font-size:14px}
#d-word .d-hint{margin-left:auto;color:#4a5b68;text-align:right}
#d-word .d-hint[data-said=yes]{color:#111;font-weight:600}
#d-word[data-kind=fault]{background:#2b2b2b;color:#fff}
#d-word[data-kind=fault] #d-said::before{content:"\2716  "}
#d-word[data-kind=fault] .d-hint[data-said],#d-word[data-kind=fault] #d-by{color:#cdd}
#d-word[data-kind=ok] #d-said::before{content:"\2714  ";color:#14682e}
#d-by{color:#4a5b68;white-space:nowrap}
#d-by[data-proved=yes]{color:#14682e;font-weight:600}
#d-word[data-kind=fault] #d-by[data-proved=yes]{color:#bff0cb}
main{display:grid;grid-template-columns:minmax(230px,.8fr) minmax(290px,1.15fr) minmax(360px,1.4fr) minmax(280px,1fr);gap:8px;padding:8px;min-height:0}
section.d-box{display:flex;flex-direction:column;min-height:0;min-width:0;background:#fff;border:1px solid #b6c1c9;border-radius:4px}
.d-box h2{font-size:12px;margin:0;padding:3px 8px;background:#dfe7ec;display:flex;gap:6px;align-items:center;border-radius:4px 4px 0 0;min-height:25px}
.d-box h2 .d-push{margin-left:auto;font-weight:400}
.d-box h2 button{padding:0 6px}
.d-rows{overflow:auto;padding:4px 8px;flex:1;min-height:0}
.d-field{display:grid;grid-template-columns:66px 1fr;gap:6px;align-items:center;margin-bottom:4px}
.d-field.d-wide{grid-template-columns:1fr}
.d-field input[type=text],.d-field input[type=number],.d-field select{width:100%;min-width:0;padding:1px 4px;border:1px solid #99a;border-radius:3px}
.d-field .d-tick{display:flex;gap:6px;align-items:center}
.d-two{display:grid;grid-template-columns:1fr 50px;gap:4px}
.d-two input[type=number]{appearance:textfield}
.d-two input::-webkit-inner-spin-button{display:none}
.d-row{display:flex;flex-wrap:wrap;align-items:baseline;gap:5px;margin:4px 0}
.d-none{color:#4a5b68;margin:4px 0}
ul.d-list{list-style:none;margin:0;padding:0}
ul.d-list li{display:flex;gap:6px;align-items:baseline;padding:2px 4px;border-radius:3px;border-left:4px solid transparent}
ul.d-list li.d-lit{background:#e3ecf7;border-left-color:#0b5fd0}
ul.d-list li:focus-visible{outline-offset:-2px}
ul.d-list .d-grow{flex:1;min-width:0;overflow-wrap:anywhere}
ul.d-list .d-ends{color:#4a5b68}
ul.d-list li.d-head{color:#4a5b68;font-weight:600;padding-top:6px}
ul.d-list button{padding:0 6px}
.d-fault{font-weight:600}
.d-ring{flex:none;min-width:17px;height:17px;border:2px solid #b5009b;border-radius:9px;color:#b5009b;font:700 11px/13px system-ui,sans-serif;text-align:center}
.d-sign{flex:none;width:17px;text-align:center;color:#4a5b68}
.d-sign.d-i{font:italic 700 13px Georgia,serif}
.d-note,.d-impossible{color:#37474f}
.d-route b{font-family:ui-monospace,monospace}
.d-route input{margin:0;align-self:center}
.d-route.d-out b{text-decoration:line-through;color:#77858f}
.d-hand{color:#0b5fd0}
#d-toml{flex:1;border:0;resize:none;font:11.5px/1.35 ui-monospace,monospace;padding:4px 8px;white-space:pre;outline-offset:-3px}
dialog{border:1px solid #667;border-radius:6px;padding:14px 20px;max-width:900px}
dialog h2{margin:0 0 8px;font-size:16px}
dialog .d-two{grid-template-columns:auto auto;gap:0 32px}
dialog td{padding:2px 10px 2px 0;vertical-align:top}
dialog td:first-child{white-space:nowrap}
dialog form{margin-top:10px;display:flex;gap:8px}
/* the plan */
#d-svg text{font-family:ui-monospace,"DejaVu Sans Mono",monospace;font-size:var(--letter,9.5px)}
#d-svg .name,#d-svg .label{paint-order:stroke;stroke:#fffc;stroke-width:2px}
.rail{stroke:#111;stroke-width:2.6;stroke-linecap:round;stroke-linejoin:round;fill:none}
.leg{stroke:#111;stroke-width:4.6;stroke-linecap:round;fill:none}
.leg.slow{stroke:#b06a00}
.band{stroke-width:12;stroke-linejoin:round;fill:none}
.band.lit{stroke:#a9c9f5}
.joint{stroke:#111;stroke-width:1.6}
.joint.none{stroke-dasharray:2.2 2.2}
.name{font-weight:700;fill:#111}
.label{fill:#37474f}
.mast,.lamp{stroke:#111;stroke-width:1.4;fill:#fff}
.lamp.near{fill:#c9211e}
.arrow{fill:#111}
.buffer{stroke:#111;stroke-width:2.4}
.ring{fill:none;stroke:none}
.chosen .ring{stroke:#0b5fd0;stroke-width:1.6;fill:#0b5fd01c}
.chosen .mast,.chosen .lamp,.chosen .joint{stroke:#0b5fd0}
.ghost{pointer-events:none;opacity:.7}
.ghost .rail{stroke:#0b5fd0;stroke-width:3.4}
.ghost.bad .rail{stroke:#b5009b;stroke-dasharray:4 4}
.ghost .lamp,.ghost .mast,.ghost .joint{stroke:#0b5fd0}
.ghost .lamp.near{fill:#0b5fd0}
.ghost .arrow{fill:#0b5fd0}
.ghost .goes{stroke:#0b5fd0;stroke-width:1.6;fill:none}
.cursor{fill:none;stroke:#0b5fd0;stroke-width:1.2}
.way{stroke:#14682e;stroke-width:5;stroke-linecap:round;stroke-linejoin:round;fill:none}
.way.bad{stroke:#b5009b;stroke-dasharray:7 5;stroke-linecap:butt}
.coming{stroke:#0b5fd0;stroke-width:4.4;stroke-dasharray:3.5 3.5;fill:none}
.flank rect{fill:#f7d36b;stroke:#111;stroke-width:.8}
#d-svg .flank text{stroke:none}
.flank circle{fill:none;stroke:#d79b00;stroke-width:2.4}
.faulty{fill:#b5009b14;stroke:#b5009b;stroke-width:2}
.faulty.lit{fill:#b5009b40;stroke-width:3}
.faulty.of-note{stroke:#0b5fd0;fill:#0b5fd022}
.number circle{fill:#b5009b}
#d-svg .number text{fill:#fff;font-weight:700;font-size:8.5px}
.dot{fill:#c3ccd3}
@media (min-width:1600px){body{font-size:15px}.d-box h2{font-size:14px}#d-toml{font-size:13.5px}#d-said{font-size:16px}main{grid-template-columns:minmax(280px,.8fr) minmax(400px,1.15fr) minmax(500px,1.4fr) minmax(380px,1fr)}.d-field{grid-template-columns:84px 1fr}.d-two{grid-template-columns:1fr 64px}}
</style>
</head>
"##] $($later)*)
    };
}

pub(crate) use style;
