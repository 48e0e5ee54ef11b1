//! What stands on the page.

/// The body of the page, up to its script.
macro_rules! body {
    ([$($before:literal)*] $next:ident $($later:ident)*) => {
        $next!([$($before)* r##"<body>
<header>
  <input id="d-station" aria-label="name of the station" title="the name of the station" spellcheck="false">
  <span class="d-tools" role="toolbar" aria-label="tools" id="d-tools"></span>
  <span id="d-file-name"></span>
  <span class="d-right"><button id="d-undo" title="undo (Ctrl+Z)" aria-label="undo">&#8630;</button><button id="d-redo" title="redo (Ctrl+Y)" aria-label="redo">&#8631;</button><button id="d-room" title="makes room: what lies right of the pointer goes one to the right">Room <kbd>i</kbd></button><button id="d-fit" title="all of it in sight">Fit <kbd>0</kbd></button><button id="d-new" title="begins anew">New</button><button id="d-open" title="opens a layout">Open</button><button id="d-save" title="Ctrl+S">Save</button><button id="d-run">Run it</button><button id="d-help">Keys <kbd>?</kbd></button></span>
</header>
<div id="d-plan"><svg id="d-svg" role="application" aria-label="drawing of the station" tabindex="0"></svg><input id="d-name" hidden spellcheck="false" aria-label="name">
  <div id="d-begin" hidden><b>A station is drawn with rails.</b><ol><li>drag a line from left to right, then others beside it</li><li>lead one rail into another: a point comes where three meet</li><li>put borders <kbd>b</kbd> at the ends, signals <kbd>s</kbd> and joints <kbd>j</kbd></li><li>routes follow, and are checked while you draw</li><li>Run it: a panel of it opens, and trains run</li></ol></div>
</div>
<div id="d-word" aria-live="polite"><b id="d-said"></b><span id="d-by"></span><span class="d-hint" id="d-hint"></span></div>
<main>
  <section class="d-box" aria-label="what is chosen"><h2><span id="d-what">Station</span></h2><div class="d-rows" id="d-fields"></div></section>
  <section class="d-box" aria-label="faults and notes"><h2>Faults and notes<span class="d-push" id="d-count"></span><kbd>f</kbd></h2><div class="d-rows"><ul class="d-list" id="d-faults"></ul></div></section>
  <section class="d-box" aria-label="routes"><h2>Routes<span class="d-push" id="d-routes-count"></span><kbd>/</kbd></h2><div class="d-rows"><ul class="d-list" id="d-routes"></ul></div></section>
  <section class="d-box" aria-label="layout"><h2>Layout<span class="d-push"><button id="d-copy">Copy</button></span></h2><textarea id="d-toml" readonly spellcheck="false" aria-label="layout in TOML"></textarea></section>
</main>
<input type="file" id="d-file" accept=".toml" hidden>
<dialog id="d-keys"><h2>Keys and signs</h2><div class="d-two"><table>
<tr><td><kbd>r</kbd></td><td>rail: drag, or click from place to place. <kbd>Shift</kbd> bends it the other way; <kbd>Enter</kbd> where it is, or <kbd>Esc</kbd>, ends it</td></tr>
<tr><td><kbd>j</kbd></td><td>joint: one section ends and the next begins. Again: elements alone end. Again: none</td></tr>
<tr><td><kbd>s</kbd></td><td>signal, on the right of the trains that it rules: point beside the rail. <kbd>.</kbd> is the other side</td></tr>
<tr><td><kbd>b</kbd></td><td>border, at an end of a rail</td></tr>
<tr><td><kbd>e</kbd></td><td>erase: click, or drag over what is to go</td></tr>
<tr><td><kbd>v</kbd> <kbd>Esc</kbd></td><td>choose. <kbd>.</kbd> goes on to what else is there; a signal is dragged along its rail</td></tr>
<tr><td><kbd>Enter</kbd> <kbd>F2</kbd></td><td>on what is chosen, or a double click: its name</td></tr>
<tr><td><kbd>Delete</kbd></td><td>takes away what is chosen</td></tr>
<tr><td>arrows</td><td>move the pointer; <kbd>Enter</kbd> clicks there</td></tr>
</table><table>
<tr><td><kbd>i</kbd></td><td>makes room: what lies right of the pointer goes one to the right</td></tr>
<tr><td><kbd>Ctrl+Z</kbd> <kbd>Ctrl+Y</kbd></td><td>undo, redo</td></tr>
<tr><td><kbd>+</kbd> <kbd>-</kbd>, wheel</td><td>zoom; <kbd>0</kbd> has all in sight; <kbd>Space</kbd> and a drag, or <kbd>Shift</kbd> and the wheel, move the paper</td></tr>
<tr><td><kbd>f</kbd> <kbd>/</kbd></td><td>to the faults, to the routes: arrows, <kbd>Enter</kbd>; <kbd>Space</kbd> leaves a route out</td></tr>
<tr><td><kbd>p</kbd></td><td>to the plan</td></tr>
<tr><td><kbd>Ctrl+S</kbd></td><td>saves</td></tr>
<tr><td>numbered ring</td><td>a fault, with its number in the list</td></tr>
<tr><td>thick green</td><td>the route that is pointed at; a yellow tag at a point that guards it, blue dashes where a train comes to it</td></tr>
<tr><td>violet dashes</td><td>a way that is no route</td></tr>
<tr><td>brown leg</td><td>it is passed slowly</td></tr>
</table></div><form method="dialog"><button>Close</button></form></dialog>
<dialog id="d-ask"><h2 id="d-ask-head"></h2><p id="d-ask-text"></p><form method="dialog" id="d-ask-ways"></form></dialog>
<script>
"use strict";
"##] $($later)*)
    };
}

pub(crate) use body;
